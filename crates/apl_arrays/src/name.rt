ghost use Rattle.std.specs.Prelude.{◌≡◌, ◌≤◌, IsTrue, IsSome, IfSome, ◌↔◌, ℕ, List as ListOf, Some, drop, length};
ghost use Rattle.std.specs.List.{list_all, prefix_len};
ghost use Rattle.apl_arrays.specs.Limits.{most_name_glyphs};
ghost use Rattle.apl_arrays.specs.Name.{IsName, IsLongestName, goes_on, is_name, longest_name};
ghost use Rattle.apl_arrays.specs.Padded.{padded};

use crate::Glyph;
use std::cmp::Ordering;
use std::hash::{Hash, Hasher};
use std::marker::Model;

/// The most glyphs of a name.
pub const NAME_LIMIT: usize = 32;

/// A name: a letter or `∆`, and then letters, `∆`, digits and `_`, 32 glyphs at most. It is seen as its glyphs.
#[derive(Debug, Clone, Copy)]
pub struct Name {
    glyphs: [Glyph; NAME_LIMIT],
    len: u8,
}

impl Model for Name {
    ghost use Rattle.std.specs.Prelude.{ℕ, List, length, take};
    ghost use Rattle.apl_arrays.specs.Glyph.{blank};
    ghost use Rattle.apl_arrays.specs.Limits.{most_name_glyphs};
    ghost use Rattle.apl_arrays.specs.Name.{IsName};
    ghost use Rattle.apl_arrays.specs.Padded.{IsPadded, padded, counted_length, padded_again, same_parts};

    ghost Value = { List ℕ };

    ghost view = { λ n. take n.len n.glyphs };

    ghost invariant = { λ n. IsPadded most_name_glyphs blank n.glyphs n.len × IsName (take n.len n.glyphs) };

    ghost inverse = { λ glyphs. record { glyphs = padded most_name_glyphs blank glyphs; len = length glyphs } };

    ghost inverse_ok = { λ n h. same_parts (λ glyphs len. record { glyphs = glyphs; len = len }) (padded_again h.0) (counted_length h.0) };
}

impl Name {
    /// The name of these glyphs, or `None` where they are no name.
    pub fn of(glyphs: &[Glyph]) -> Option<Name>
        ensures known { IsSome result ↔ IsName glyphs.now }
        ensures value { IfSome result (λ name. name ≡ glyphs.now) }
    {
        if !is_name(glyphs) {
            return None;
        }
        let mut places = [Glyph::BLANK; NAME_LIMIT];
        places[..glyphs.len()].copy_from_slice(glyphs);
        Some(Name {
            glyphs: places,
            len: glyphs.len() as u8,
        })
    }

    /// How many glyphs at the front go on as a name does.
    #[tactic(auto, using(crate::proofs::Runs::run_fits))]
    pub fn run_length(line: &[Glyph]) -> usize
        ensures value { result ≡ prefix_len goes_on line.now }
        ensures within { result ≤ length line.now }
    {
        line.iter().take_while(|glyph| glyph.goes_on()).count()
    }

    /// The longest name at the front, and how many glyphs it has: all that go on as a name does. `None` where they are
    /// no name: there are none or over 32, or the first is no letter.
    pub fn longest(line: &[Glyph]) -> Option<(Name, usize)>
        ensures value { result ≡ longest_name line.now }
        ensures within { IfSome result (λ found. found.1 ≤ length line.now) }
    {
        let length = Name::run_length(line);
        let name = Name::of(&line[..length])?;
        Some((name, length))
    }

    /// Its glyphs.
    pub fn glyphs(&self) -> &[Glyph]
        ensures value { result.now ≡ self.now }
        ensures name { IsName self.now }
    {
        &self.glyphs[..self.len as usize]
    }
}

impl PartialEq for Name {
    ghost use Rattle.std.specs.Prelude.{◌==◌};
    ghost use Rattle.std.specs.Cmp.Lexicographic.{pointwise};
    ghost use Rattle.std.specs.Cmp.Rules.{comparing};
    ghost use Rattle.std.proofs.Common.{rules};

    ghost eq = { pointwise ◌==◌ };

    ghost laws = { Prim.search (comparing, rules) };

    fn eq(&self, other: &Name) -> bool {
        self.glyphs() == other.glyphs()
    }
}

impl Eq for Name {
    ghost use Rattle.std.specs.Cmp.Rules.{comparing};
    ghost use Rattle.std.proofs.Common.{rules};

    ghost laws = { Prim.search (comparing, rules) };
}

impl Ord for Name {
    ghost use Rattle.std.specs.Ordering.{nat_cmp};
    ghost use Rattle.std.specs.Cmp.Lexicographic.{slice_cmp};
    ghost use Rattle.std.specs.Cmp.Rules.{comparing};
    ghost use Rattle.std.proofs.Common.{rules};

    ghost cmp = { slice_cmp nat_cmp };

    ghost total = { Prim.search (comparing, rules) };

    ghost matches_partial_cmp = { Prim.search (comparing, rules) };

    ghost matches_eq = { Prim.search (comparing, rules) };

    fn cmp(&self, other: &Name) -> Ordering {
        self.glyphs().cmp(other.glyphs())
    }
}

impl PartialOrd for Name {
    ghost use Rattle.std.specs.Ordering.{nat_cmp, as_partial_cmp};
    ghost use Rattle.std.specs.Cmp.Lexicographic.{slice_cmp};
    ghost use Rattle.std.specs.Cmp.{partial_order_from_own_ties};
    ghost use Rattle.std.specs.Cmp.Rules.{comparing};
    ghost use Rattle.std.proofs.Common.{rules};

    ghost partial_cmp = { as_partial_cmp (slice_cmp nat_cmp) };

    ghost laws = { partial_order_from_own_ties (Prim.search (comparing, rules)) (Prim.search (comparing, rules)) };

    fn partial_cmp(&self, other: &Name) -> Option<Ordering> {
        Some(self.cmp(other))
    }
}

impl Hash for Name {
    ghost use Rattle.std.specs.Hash as fed;
    ghost use Rattle.std.specs.Cmp.Rules.{comparing, hashing};
    ghost use Rattle.std.proofs.Common.{rules};

    ghost hash_input = { fed.slice fed.u8 };

    ghost respects_eq = { Prim.search (hashing, rules) };

    fn hash<H: Hasher>(&self, state: &mut H) {
        self.glyphs().hash(state);
    }
}

fn all_go_on(glyphs: &[Glyph]) -> bool
    ensures { result ≡ list_all goes_on glyphs.now }
{
    glyphs.iter().all(|glyph| glyph.goes_on())
}

fn is_name(glyphs: &[Glyph]) -> bool
    ensures value { result ≡ is_name glyphs.now }
    ensures short { IsTrue result → length glyphs.now ≤ most_name_glyphs }
{
    match glyphs.split_first() {
        None => false,
        Some((first, rest)) => first.is_letter() && rest.len() < NAME_LIMIT && all_go_on(rest),
    }
}

/// The longest name of a line is the name at its front behind which nothing goes on as a name does. The call does
/// nothing.
pub fn longest_names_end()
    ensures found { (line name rest : ListOf ℕ) → IsLongestName line name rest → longest_name line ≡ Some (name, length name) }
    ensures ends { (line name : ListOf ℕ) (count : ℕ) → longest_name line ≡ Some (name, count) → (count ≡ length name) × IsLongestName line name (drop count line) }
{}
