// Path bytes judged, and the stops of judged bytes. Every record of a version has one size, so a stop's place follows from its number, and
// judged bytes can be read at any stop.
ghost use Rattle.std.specs.Prelude.{◌≡◌, ◌+◌, ◌*◌, ◌≤◌, min, eqb, length, drop, IfOk};
ghost use Rattle.base.specs.Outcome.{said, done, giving, number};
ghost use Rattle.records.specs.Kind.{kind_number};
ghost use Rattle.records.specs.Record.{record_length, take_record, stop_kind};
ghost use Rattle.path.specs.Path.{read_head, read_body, read_stop, body_after_head, stop_place, stop_size, stop_in};
ghost use Rattle.path.specs.Bytes.{opened};

use crate::PathBytes;
use crate::bytes::word16;
use crate::form::{Form, known_version};
use base::Refusal;
use records::{Kind, field16, judge_record};
use stop::Stop;

// The bytes of a head and of an end record.
pub const HEAD_SIZE: usize = 8;

pub const END_SIZE: usize = 4;

// What a stop that is not there counts as.
const NO_STOP: Stop = Stop {
    at: [0, 0, 0],
    speed: 0,
    blend: 0,
    dwell: 0,
};

// A path's bytes by their head, for a caller that knows versions up to `highest`.
pub fn judge_head(bytes: &[u8], highest: u16) -> Result<PathBytes<'_>, Refusal>
    ensures head { giving opened (said result) ≡ read_head bytes.now highest }
    ensures same { IfOk result (λ p. p.bytes.now ≡ bytes.now) }
{
    if !known_version(highest) {
        return Err(Refusal::WrongVersion);
    }
    judge_record(bytes, 0, Kind::Path.number(), Kind::Path.length(highest))?;
    let version = field16(bytes, 4);
    let k = field16(bytes, 6);
    if highest < version {
        return Err(Refusal::WrongVersion);
    }
    Form::new(version, k)?;
    Ok(PathBytes { bytes, version, k })
}

// The bytes that a stop's record takes.
pub fn stop_size(version: u16) -> usize
    ensures { result ≡ stop_size version }
{
    2 + Kind::Stop.length(version)
}

impl PathBytes<'_> {
    // Where the record of stop i begins. A place past the end of the bytes is as good as any other there; a stop number of 2^59 or more, whose
    // place would not fit, always lies there. A test that no small number meets: a saturating product takes longer, for each stop.
    fn place(self, i: usize) -> usize
        ensures { result ≡ min (stop_place self.entry.version i) (8 + length self.entry.bytes.now) }
    {
        let past = HEAD_SIZE + self.bytes.len();
        if 0x0800_0000_0000_0000 <= i {
            return past;
        }
        (HEAD_SIZE + i * stop_size(self.version)).min(past)
    }

    // Stop i; of bytes that were not judged, zeros where its record does not lie within them.
    pub fn stop(self, i: usize) -> Stop
        ensures { result ≡ stop_in self.entry.version i self.entry.bytes.now }
    {
        let at = self.place(i);
        if self.bytes.len() < at + stop_size(self.version) {
            return NO_STOP;
        }
        self.stop_at(at + 4)
    }

    // The refusal where no record of a kind stands at the place of stop i.
    fn judge_place(self, i: usize, kind: Kind) -> Result<(), Refusal>
        ensures { said result ≡ done (take_record (kind_number kind) (record_length (kind_number kind) self.entry.version 0) (drop (stop_place self.entry.version i) self.entry.bytes.now)) }
    {
        judge_record(
            self.bytes,
            self.place(i),
            kind.number(),
            kind.length(self.version),
        )
    }

    // Whether a stop's record lies whole at `at`: one answer for a good record, found quickly. What else stands there is for `judge_record` to say.
    fn is_stop(self, at: usize) -> bool
        requires { at ≤ 8 + length self.bytes.now }
        ensures { result ≡ eqb (number (take_record stop_kind (record_length stop_kind self.entry.version 0) (drop at self.entry.bytes.now))) 0 }
    {
        let long = Kind::Stop.length(self.version);
        if self.bytes.len() < at + 2 + long {
            return false;
        }
        word16(self.bytes, at) as usize == long && word16(self.bytes, at + 2) == Kind::Stop.number()
    }

    // The refusal of the record of stop i: its own, or that of its fields. Called, and not part of the loop over the stops, it would take longer.
    #[inline(always)]
    pub fn judge_stop(self, i: usize) -> Result<(), Refusal>
        ensures { said result ≡ done (read_stop self.entry.version (drop (stop_place self.entry.version i) self.entry.bytes.now)) }
    {
        let at = self.place(i);
        if !self.is_stop(at) {
            return self.judge_place(i, Kind::Stop);
        }
        self.stop_at(at + 4).judge()
    }

    // The refusal of the end of a path of `count` stops.
    pub fn judge_end(self, count: usize) -> Result<(), Refusal>
        ensures { said result ≡ done (read_body self.entry.version 0 (drop (stop_place self.entry.version count) self.entry.bytes.now)) }
    {
        self.judge_place(count, Kind::End)?;
        if self.place(count) + END_SIZE < self.bytes.len() {
            return Err(Refusal::TrailingBytes);
        }
        Ok(())
    }

    // The first refusal of `count` stops and the end.
    fn judge_stops(self, count: usize) -> Result<(), Refusal>
        ensures { said result ≡ done (read_body self.entry.version count (drop 8 self.entry.bytes.now)) }
    {
        for i in 0..count {
            self.judge_stop(i)?;
        }
        self.judge_end(count)
    }

    // The first refusal after the head of a path of 2^k stops; the version and k that the head gave are tested again.
    pub fn judge(self) -> Result<(), Refusal>
        ensures { said result ≡ done (body_after_head self.entry.bytes.now self.entry.version self.entry.k) }
    {
        let form = Form::new(self.version, self.k)?;
        self.judge_stops(form.count())
    }
}
