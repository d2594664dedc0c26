// What is written: each draw, and the whole reading. A stop is written as the 18 bytes that its record of version 6 holds.
use path::HEAD_SIZE;
use reader::{Drawn, Reader};
use std::io;
use std::ops::Range;
use stop::{Stop, Stops};
use test_support::write::Hex;

// Where the content of the one stop of a path begins and ends: after the head, its length and its kind, before the end record.
const FIRST: usize = HEAD_SIZE + 4;

const AFTER: usize = FIRST + 18;

// A stop, out of the path that it makes alone.
fn write_stop(rt: &impl Print, s: Stop) -> io::Result<()> {
    let stops = Stops {
        coords: &s.at,
        speeds: &[s.speed],
        blends: &[s.blend],
        dwells: &[s.dwell],
    };
    let mut out = [0u8; AFTER + 4];
    let _written = path::write_path(6, 0, stops, &mut out);
    print!(rt; " {}", Hex(&out[FIRST..AFTER]))
}

// An answer.
fn write_drawn(rt: &impl Print, drawn: Drawn) -> io::Result<()> {
    match drawn {
        Ok(Some(stop)) => write_stop(rt, stop),
        Ok(None) => print!(rt; " end"),
        Err(refusal) => print!(rt; " refused {}", refusal.number()),
    }
}

// A path's bytes, and the highest version that their reader knows.
#[derive(Clone, Copy)]
pub struct Given<'a> {
    bytes: &'a [u8],
    highest: u16,
}

impl<'a> Given<'a> {
    // These bytes for that reader.
    pub fn of(bytes: &'a [u8], highest: u16) -> Given<'a> {
        Given { bytes, highest }
    }

    // The first 7 draws of a reader, one after another.
    fn draws(self, rt: &impl Print) -> io::Result<()> {
        let mut reader = Reader::open(self.bytes, self.highest);
        for _ in 0..7 {
            write_drawn(rt, reader.draw())?;
        }
        Ok(())
    }

    // The draws by these numbers.
    pub fn numbered(self, rt: &impl Print, numbers: Range<usize>) -> io::Result<()> {
        for number in numbers {
            write_drawn(rt, reader::draw_number(self.bytes, self.highest, number))?;
        }
        Ok(())
    }

    // The whole reading with places for 4 stops.
    fn whole(self, rt: &impl Print) -> io::Result<()> {
        let mut coords = [0i32; 12];
        let mut speeds = [0u16; 4];
        let mut blends = [0u16; 4];
        let mut dwells = [0u16; 4];
        let read = path::read_path(
            self.bytes,
            self.highest,
            &mut coords,
            &mut speeds,
            &mut blends,
            &mut dwells,
        );
        match read {
            Ok(heading) => {
                let stops = Stops {
                    coords: &coords,
                    speeds: &speeds,
                    blends: &blends,
                    dwells: &dwells,
                };
                for i in 0..base::stop_count(heading.k).min(4) {
                    write_stop(rt, stops.at(i))?;
                }
                print!(rt; " end")
            }
            Err(refusal) => print!(rt; " refused {}", refusal.number()),
        }
    }

    // The draws of a reader, the same by their numbers, and under them the whole reading.
    pub fn both(self, rt: &impl Print) -> io::Result<()> {
        print!(rt; "\n  draws:")?;
        self.draws(rt)?;
        print!(rt; "\n  by number:")?;
        self.numbered(rt, 0..7)?;
        print!(rt; "\n  whole:")?;
        self.whole(rt)?;
        println!(rt; "")
    }
}

// One draw from a cursor, and the cursor and the version that it leaves.
pub fn step(rt: &impl Print, bytes: &[u8], at: usize, version: u16) -> io::Result<()> {
    let step = reader::draw_from(bytes, at, version);
    print!(rt; "cursor {at}, version {version}:")?;
    write_drawn(rt, step.drawn)?;
    println!(rt; ", then {}, {}", step.at, step.version)
}
