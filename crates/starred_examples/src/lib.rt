// The ten starred examples of document 01, proved from the definitions: no code.

#![tactic(auto)]
