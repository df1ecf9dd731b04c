// Where the samples of one track lie, and nothing else of them: a cursor by value as the lane is, over stsz, stsc and the
// chunks alone. It has 7 numbers where a lane has 20, for a walk that asks for no times.
ghost use Rattle.std.specs.Prelude.{◌≡◌};
ghost use Rattle.tables.specs.Tables.{chunks};
ghost use Rattle.tables.specs.Rows.{rows_of};
ghost use Rattle.samples.specs.Lists.{view};
ghost use Rattle.lanes.specs.Steps.{SamePlaces, PlaceReady};
ghost use Rattle.lanes.specs.Site.{left, fresh, shows};

use crate::Place;
use samples::LAST;
use tables::{Chunks, Rows, Track};

// done: how many samples were passed.
#[derive(Clone, Copy)]
pub struct Site {
    pub done: u32,
    pub place: Place,
}

// Over: a sample's end passes 2^64 - 1 (refusal 9).
#[derive(Clone, Copy)]
pub enum Stood {
    One {
        number: u32,
        offset: u64,
        size: u32,
        site: Site,
    },
    End,
    Over,
}

// Before the first sample.
pub fn start() -> Site
    ensures { result ≡ fresh }
{
    let groups = crate::new_runs();
    Site {
        done: 0,
        place: Place {
            left: 0,
            at: 0,
            chunk: 0,
            groups,
        },
    }
}

// The cursor with a sample left in its chunk. Most often it has one, and then nothing is called: what a call takes by
// reference would be stored for every sample.
fn at_hand(file: &[u8], rows: Rows, t: Chunks, p: Place) -> Place
    ensures same { SamePlaces (rows_of file.now rows) (chunks file.now t) result p }
    ensures ready { PlaceReady (rows_of file.now rows) (chunks file.now t) result }
{
    if p.left == 0 {
        return crate::place_ready(file, rows, t, p);
    }
    p
}

// The next sample's number, place and size, and the cursor after it. There is none where stsz or stsc has no more.
pub fn next(file: &[u8], track: Track, site: Site) -> Stood
    ensures { shows file.now track result ≡ view (left file.now track site) }
{
    let sizes = track.stsz;
    let count = sizes.count;
    let done = site.done;
    if count <= done {
        return Stood::End;
    }
    let number = done + 1;
    let size = tables::size_at(file, sizes, done);
    let chunks = track.stco;
    let stsc = track.stsc;
    let place = site.place;
    let p = at_hand(file, tables::groups(stsc, chunks.count), chunks, place);
    if p.left == 0 {
        return Stood::End;
    }
    let wide = size as u64;
    if LAST - p.at < wide {
        return Stood::Over;
    }
    let runs = p.groups;
    Stood::One {
        number,
        offset: p.at,
        size,
        site: Site {
            done: number,
            place: Place {
                left: p.left - 1,
                at: p.at + wide,
                chunk: p.chunk,
                groups: runs,
            },
        },
    }
}
