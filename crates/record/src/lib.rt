// What a stream of bytes asks of the program: a record of settings, then one of the input panel, and nothing more.
// A reader may rely on `asked_by` answering any bytes as `asked_of` of specs/Record.antt says: the settings to factor
// with, or the fault for which the stream is turned away with refusal 20, 21 or 22.
#![tactic(auto)]

ghost use Rattle.std.specs.Prelude.{◌≡◌, ◌+◌, ◌≤◌, length};
ghost use Rattle.little_endian.specs.LittleEndian.{le16};
ghost use Rattle.record.specs.Record.{mode_of, settings_of, record_at, first_sound, sizes_sound, second_sound};
ghost use Rattle.record.specs.Record.{fault_number, asked_of, RecordPre};

use model::{Mode, Settings};

// The bytes of the longest stream that is not refused: 24, 6 and 8 for each of 64·16 numbers. A stream that goes on
// asks what its first LONGEST + 1 bytes ask (`asked-prefix` of proofs/Laws.antt), so no more need be read.
pub const LONGEST: usize = 30 + 8 * (64 * 16);

// Why a stream is turned away: its settings, its sizes or its panel.
#[derive(Clone, Copy)]
pub enum Fault {
    Settings,
    Sizes,
    Panel,
}

impl Fault {
    // The number of its refusal, whose place is 0, 0.
    pub fn number(self) -> usize
        ensures { result ≡ fault_number self }
    {
        match self {
            Fault::Settings => 20,
            Fault::Sizes => 21,
            Fault::Panel => 22,
        }
    }
}

// ---- the first record

// Whether a record of that length and kind stands from place at on, whole.
#[tactic(auto, unfolding(crate::specs::Record::record_at))]
fn record_at(s: &[u8], at: usize, len: usize, kind: u16) -> bool
    requires { RecordPre at len }
    ensures { result ≡ record_at s.now at len kind }
{
    s.len() >= at + 4 + len
        && little_endian::u32_at(s, at) as usize == len
        && little_endian::u16_at(s, at + 4) == kind
}

// Refusal 20's test.
#[tactic(auto, unfolding(crate::specs::Record::first_sound))]
fn first_sound(s: &[u8]) -> bool
    ensures { result ≡ first_sound s.now }
{
    record_at(s, 0, 20, 1) && little_endian::u16_at(s, 12) <= 1
}

// A u16 as a size.
fn field(s: &[u8], at: usize) -> usize
    requires { at + 2 ≤ length s.now }
    ensures { result ≡ le16 s.now at }
{
    usize::from(little_endian::u16_at(s, at))
}

// (No match: the number is what a stream holds, of which all but 0 and 1 meet refusal 20.)
#[tactic(auto, unfolding(crate::specs::Record::mode_of))]
fn mode_of(mode: usize, floor: f64) -> Mode
    ensures { result ≡ mode_of mode floor }
{
    if mode == 0 {
        Mode::Fail
    } else {
        Mode::Lift(floor)
    }
}

#[tactic(auto, unfolding(crate::specs::Record::settings_of))]
fn settings(s: &[u8]) -> Settings
    requires { 24 ≤ length s.now }
    ensures { result ≡ settings_of s.now }
{
    let ncol = field(s, 6);
    let nrow = field(s, 8);
    let nb = field(s, 10);
    let mode = mode_of(field(s, 12), little_endian::f64_at(s, 16));
    let limit = field(s, 14);
    Settings {
        ncol,
        nrow,
        nb,
        mode,
        limit,
    }
}

// ---- sizes and the second record

// Refusal 21's test.
#[tactic(auto, unfolding(crate::specs::Record::sizes_sound))]
fn sizes_sound(c: Settings) -> bool
    ensures { result ≡ sizes_sound c }
{
    c.ncol <= 16 && c.nrow <= 64 && c.nb <= 16
}

// Refusal 22's test, for a panel of n numbers.
#[tactic(auto, unfolding(crate::specs::Record::second_sound))]
fn second_sound(s: &[u8], n: usize) -> bool
    requires { n ≤ 1024 }
    ensures { result ≡ second_sound s.now n }
{
    record_at(s, 24, 2 + 8 * n, 2) && s.len() <= 30 + 8 * n
}

// What the stream asks.
// in: stream, any bytes
pub fn asked_by(stream: &[u8]) -> Result<Settings, Fault>
    ensures { result ≡ asked_of stream.now }
{
    if !first_sound(stream) {
        return Err(Fault::Settings);
    }
    let c = settings(stream);
    if !sizes_sound(c) {
        return Err(Fault::Sizes);
    }
    if !second_sound(stream, c.nrow * c.ncol) {
        return Err(Fault::Panel);
    }
    Ok(c)
}
