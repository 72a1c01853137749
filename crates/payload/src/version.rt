// Version strings: document 01, "Control payloads". Three decimal parts of value 0 to 255, no spare zeros, major at least 1.
ghost use Rattle.std.specs.Prelude.{◌≡◌, ◌+◌, ◌≤◌, ◌++◌, length};
ghost use Rattle.lines.specs.Decimal.{decimal_of};
ghost use Rattle.payload.specs.Append.{wrote};
ghost use Rattle.payload.specs.Version.{spare_zero, part_of, before_dot, after_dot, version_of, version_text, write_version_of, lesser_of};

use crate::draft::{Draft, ROOM};
use figures::refusal::{self, Refusal};

// The fields stand in the order in which versions are compared.
#[derive(Clone, Copy, Debug, PartialEq, Eq, PartialOrd, Ord)]
pub struct Version {
    pub major: u8,
    pub minor: u8,
    pub patch: u8,
}

// Whether a zero stands in front of other characters.
fn spare_zero(text: &[u8]) -> bool
    ensures { result ≡ spare_zero text.now }
{
    if text.len() < 2 {
        return false;
    }
    text[0] == b'0'
}

// What a part says: a number from 0 to 255 with no spare zeros.
#[tactic(auto, unfolding(crate::specs::Version::part_of))]
fn part(text: &[u8]) -> Option<u8>
    ensures { result ≡ part_of text.now }
{
    if spare_zero(text) {
        return None;
    }
    let number = lines::decimal_to_number(text).ok()?;
    u8::try_from(number).ok()
}

// The text before the first dot: all of it where there is none.
fn before_dot(text: &[u8]) -> &[u8]
    ensures { result.now ≡ before_dot text.now }
{
    let dot = lines::find(text, 0, text.len(), b'.');
    &text[0..dot]
}

// The text past the first dot: nothing where there is none.
fn after_dot(text: &[u8]) -> &[u8]
    ensures { result.now ≡ after_dot text.now }
{
    let end = text.len();
    let dot = lines::find(text, 0, end, b'.');
    if dot == end {
        return &text[dot..end];
    }
    &text[dot + 1..end]
}

// The version that a text says. None has a major of 0.
#[tactic(auto, unfolding(crate::specs::Version::version_of, crate::specs::Version::version_from))]
pub fn read(text: &[u8]) -> Option<Version>
    ensures { result ≡ version_of text.now }
{
    let rest = after_dot(text);
    let major = part(before_dot(text))?;
    let minor = part(before_dot(rest))?;
    let patch = part(after_dot(rest))?;
    if major == 0 {
        return None;
    }
    Some(Version {
        major,
        minor,
        patch,
    })
}

impl Draft {
    // A version's string: 5 to 11 bytes.
    pub(crate) fn version(&mut self, version: Version)
        requires { length self.old + 11 ≤ ROOM }
        ensures value { self.new ≡ self.old ++ version_text version }
        ensures bound { length self.new ≤ length self.old + 11 }
    {
        self.decimal(version.major);
        self.byte(b'.');
        self.decimal(version.minor);
        self.byte(b'.');
        self.decimal(version.patch);
    }
}

// How many digits a part has.
#[tactic(auto, using(crate::proofs::Versions::digits_one, crate::proofs::Versions::digits_two, crate::proofs::Versions::digits_three))]
fn width(n: u8) -> usize
    ensures { (result ≡ length (decimal_of n)) × (result ≤ 3) }
{
    if n < 10 {
        1
    } else if n < 100 {
        2
    } else {
        3
    }
}

// How many bytes a version's string has: 5 to 11.
#[tactic(auto, using(crate::proofs::Versions::length_version))]
pub fn size(version: Version) -> usize
    ensures { (result ≡ length (version_text version)) × (result ≤ 11) }
{
    width(version.major) + width(version.minor) + width(version.patch) + 2
}

// A version's string to the front of out. No string says a major of 0.
pub fn write(version: Version, out: &mut [u8]) -> Result<usize, Refusal>
    ensures { wrote result out.new ≡ write_version_of version out.old }
{
    // as in lib.rt, a name of its own for what is judged
    let unsaid = version.major < 1;
    if unsaid {
        return Err(refusal::BAD_SETTINGS);
    }
    let end = size(version);
    if out.len() < end {
        return Err(refusal::TOO_SMALL);
    }
    let mut text = Draft::new();
    text.version(version);
    text.write(out)
}

// The lesser of two versions.
#[tactic(auto, using(crate::proofs::VersionOrder::lesser_min))]
pub fn lesser(a: Version, b: Version) -> Version
    ensures { result ≡ lesser_of a b }
{
    a.min(b)
}
