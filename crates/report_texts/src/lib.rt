// How long the texts that the programs print can be, and how much of a file need be read.
#![tactic(auto)]

ghost use Rattle.std.specs.Prelude.{◌≡◌};
ghost use Rattle.report_texts.specs.Texts.{enough_room};
ghost use Rattle.report_texts.specs.Report.{Enough};

use file_words::WORD_BYTES;
use grammar::limits::{TOKENS, WORDS};

// Room for every sheet, for every judgement, and for all gaps and overlaps.
pub const SHEET_ROOM: usize = sheet_text::ROOM;

pub const JUDGEMENT_ROOM: usize = judgement_text::ROOM;

pub const GAPS_ROOM: usize = gaps_text::ROOM;

#[derive(Clone, Copy)]
pub struct Rooms {
    pub sheet: usize,
    pub judgement: usize,
    pub gaps: usize,
}

// The three in one value, so that what the specifications say of room is proved of these.
pub fn enough_room() -> Rooms
    ensures { result ≡ enough_room }
{
    Rooms {
        sheet: SHEET_ROOM,
        judgement: JUDGEMENT_ROOM,
        gaps: GAPS_ROOM,
    }
}

// How much of a file and of an input is read: one byte more than the longest of them.
pub const FILE_BYTES: usize = WORD_BYTES * WORDS + 1;

pub const INPUT_BYTES: usize = TOKENS + 1;

#[derive(Clone, Copy)]
pub struct Reads {
    pub file: usize,
    pub input: usize,
}

// The two in one value, so that it is proved that no more need be read.
pub fn enough_read() -> Reads
    ensures { Enough result }
{
    Reads {
        file: FILE_BYTES,
        input: INPUT_BYTES,
    }
}
