ghost use Rattle.std.specs.Prelude.{◌≡◌, ◌<◌, ◌≤◌, ◌∷◌, [], ◌++◌, ◌↔◌, IsTrue, IsOk, IsSome, IfSome, OnOk, OnErr, length, map};
ghost use Rattle.std.specs.List.{list_all};
ghost use Rattle.apl_arrays.specs.Limits.{most_file_name_bytes};
ghost use Rattle.apl_arrays.specs.File.{is_file_byte, is_file_name, IsFileName};

use std::cmp::Ordering;
use std::hash::{Hash, Hasher};
use std::marker::Model;

/// The most bytes of a file's name.
pub const FILE_NAME_LIMIT: usize = 32;

/// The name of a text file. It has up to 32 letters and digits of ASCII, `_`, `-` and dots, and begins with no dot. It is
/// seen as its text.
#[derive(Debug, Clone, Copy)]
pub struct FileName {
    bytes: [u8; FILE_NAME_LIMIT],
    len: u8,
}

impl Model for FileName {
    ghost use Rattle.std.specs.Prelude.{ℕ, List, length, take};
    ghost use Rattle.apl_arrays.specs.File.{IsFileName};
    ghost use Rattle.apl_arrays.specs.Limits.{most_file_name_bytes};
    ghost use Rattle.apl_arrays.specs.Padded.{IsPadded, padded, counted_length, padded_again, same_parts};

    ghost Value = { List ℕ };

    ghost view = { λ n. take n.len n.bytes };

    ghost invariant = { λ n. IsPadded most_file_name_bytes 0 n.bytes n.len × IsFileName (take n.len n.bytes) };

    ghost inverse = { λ text. record { bytes = padded most_file_name_bytes 0 text; len = length text } };

    ghost inverse_ok = { λ n h. same_parts (λ bytes len. record { bytes = bytes; len = len }) (padded_again h.0) (counted_length h.0) };
}

impl FileName {
    /// The name that the text is, or `None` where it is no file name.
    pub fn of(text: &str) -> Option<FileName>
        ensures known { IsSome result ↔ IsFileName text.now }
        ensures value { IfSome result (λ name. name ≡ text.now) }
    {
        FileName::of_bytes(text.as_bytes())
    }

    /// The name that these bytes are, or `None` where they are no file name.
    pub fn of_bytes(text: &[u8]) -> Option<FileName>
        ensures known { IsSome result ↔ IsFileName text.now }
        ensures value { IfSome result (λ name. name ≡ text.now) }
    {
        if !is_file_name(text) {
            return None;
        }
        let mut bytes = [0; FILE_NAME_LIMIT];
        bytes[..text.len()].copy_from_slice(text);
        Some(FileName {
            bytes,
            len: text.len() as u8,
        })
    }

    /// The bytes of its text.
    pub fn as_bytes(&self) -> &[u8]
        ensures value { result.now ≡ self.now }
        ensures name { IsFileName self.now }
    {
        &self.bytes[..self.len as usize]
    }
}

fn is_file_byte(byte: u8) -> bool
    ensures { result ≡ is_file_byte byte }
{
    byte.is_ascii_alphanumeric() || matches!(byte, b'_' | b'.' | b'-')
}

fn are_file_bytes(text: &[u8]) -> bool
    ensures { result ≡ list_all is_file_byte text.now }
{
    text.iter().all(|byte| is_file_byte(*byte))
}

fn is_file_name(text: &[u8]) -> bool
    ensures value { result ≡ is_file_name text.now }
    ensures short { IsTrue result → length text.now ≤ most_file_name_bytes }
{
    match text.split_first() {
        None => false,
        Some((first, rest)) => *first != b'.'
            && rest.len() < FILE_NAME_LIMIT
            && are_file_bytes(text),
    }
}

impl PartialEq for FileName {
    ghost use Rattle.std.specs.Prelude.{◌==◌};
    ghost use Rattle.std.specs.Cmp.Lexicographic.{pointwise};
    ghost use Rattle.std.specs.Cmp.Rules.{comparing};
    ghost use Rattle.std.proofs.Common.{rules};

    ghost eq = { pointwise ◌==◌ };

    ghost laws = { Prim.search (comparing, rules) };

    fn eq(&self, other: &FileName) -> bool {
        self.as_bytes() == other.as_bytes()
    }
}

impl Eq for FileName {
    ghost use Rattle.std.specs.Cmp.Rules.{comparing};
    ghost use Rattle.std.proofs.Common.{rules};

    ghost laws = { Prim.search (comparing, rules) };
}

impl Ord for FileName {
    ghost use Rattle.std.specs.Ordering.{nat_cmp};
    ghost use Rattle.std.specs.Cmp.Lexicographic.{slice_cmp};
    ghost use Rattle.std.specs.Cmp.Rules.{comparing};
    ghost use Rattle.std.proofs.Common.{rules};

    ghost cmp = { slice_cmp nat_cmp };

    ghost total = { Prim.search (comparing, rules) };

    ghost matches_partial_cmp = { Prim.search (comparing, rules) };

    ghost matches_eq = { Prim.search (comparing, rules) };

    fn cmp(&self, other: &FileName) -> Ordering {
        self.as_bytes().cmp(other.as_bytes())
    }
}

impl PartialOrd for FileName {
    ghost use Rattle.std.specs.Ordering.{nat_cmp, as_partial_cmp};
    ghost use Rattle.std.specs.Cmp.Lexicographic.{slice_cmp};
    ghost use Rattle.std.specs.Cmp.{partial_order_from_own_ties};
    ghost use Rattle.std.specs.Cmp.Rules.{comparing};
    ghost use Rattle.std.proofs.Common.{rules};

    ghost partial_cmp = { as_partial_cmp (slice_cmp nat_cmp) };

    ghost laws = { partial_order_from_own_ties (Prim.search (comparing, rules)) (Prim.search (comparing, rules)) };

    fn partial_cmp(&self, other: &FileName) -> Option<Ordering> {
        Some(self.cmp(other))
    }
}

impl Hash for FileName {
    ghost use Rattle.std.specs.Hash as fed;
    ghost use Rattle.std.specs.Cmp.Rules.{comparing, hashing};
    ghost use Rattle.std.proofs.Common.{rules};

    ghost hash_input = { fed.slice fed.u8 };

    ghost respects_eq = { Prim.search (hashing, rules) };

    fn hash<H: Hasher>(&self, state: &mut H) {
        self.as_bytes().hash(state);
    }
}
