//! A name has 1 to 32 bytes: a letter, then letters, digits and `_`. The words `lower`, `upper` and
//! `when` are no names.
ghost use Rattle.std.specs.Prelude.{◌≡◌, ℕ, ◌≤◌, ◌↔◌, List, length, IsTrue, IsFalse, IfOk, IsErr, OnErr, MatchResult, bytes_eq};
ghost use Rattle.std.specs.List.{list_all};
ghost use Rattle.std.specs.Cmp.{partial_equiv_from_equiv};
ghost use Rattle.std.specs.Cmp.Lexicographic.{nat_list_eq_equiv};
ghost use Rattle.std.specs.Hash as fed;
ghost use Rattle.std.proofs.lemmas.Slice.Eq.{bytes_eq-Decides};
ghost use Rattle.uhura_plan.specs.Name.{is_name, is_letter, is_name_byte, is_fixed_word};
ghost use Rattle.uhura_plan.specs.declared.limits.TheConstants.{NAME_BYTES};

use crate::NAME_BYTES;
use std::hash::{Hash, Hasher};
use std::marker::Model;
use thiserror::Error;

/// A word that is no name.
#[derive(Clone, Copy, Debug, PartialEq, Eq, Error)]
#[error("a name has 1 to 32 letters, digits and `_`, begins with a letter, and is not `lower`, `upper` or `when`")]
pub struct NotName;

/// The name of an event, a duration, a choice, an alternative, a requirement or a veto.
#[derive(Clone, Copy, Debug)]
pub struct Name {
    bytes: [u8; NAME_BYTES],
    len: u8,
}

impl Model for Name {
    ghost use Rattle.std.specs.Prelude.{List, ℕ, take, length, ◌++◌, ◌-◌, replicate};
    ghost use Rattle.uhura_plan.specs.declared.limits.TheConstants.{NAME_BYTES};
    ghost use Rattle.uhura_plan.specs.Name.{HoldsName};
    ghost use Rattle.uhura_plan.specs.Padded.{padded-back, length-padded};

    ghost Value = { List ℕ };

    ghost view = { λ n. take n.len n.bytes };

    ghost invariant = { λ n. HoldsName n.bytes n.len };

    ghost inverse = { λ word. record {
      bytes = word ++ replicate (NAME_BYTES - length word) 0;
      len = length word;
    } };

    ghost inverse_ok = { λ n held i. record {
      bytes = padded-back n.bytes n.len held i;
      len = length-padded n.bytes n.len held i;
    } };
}

impl Name {
    /// The name that a word spells.
    pub fn read(word: &[u8]) -> Result<Name, NotName>
        ensures ok { IfOk result (λ name. name ≡ word.now) }
        ensures not_name { IsErr result ↔ IsFalse (is_name word.now) }
    {
        if !is_name(word) {
            return Err(NotName);
        }
        let mut bytes = [0; NAME_BYTES];
        bytes[..word.len()].copy_from_slice(word);
        Ok(Name {
            bytes,
            len: word.len() as u8,
        })
    }

    /// The bytes of the name.
    #[tactic(auto, using(crate::proofs::Names::least_name, crate::proofs::Names::most_name))]
    pub fn bytes(&self) -> &[u8]
        ensures bytes { result.now ≡ self.now }
        ensures name { IsTrue (is_name self.now) }
        ensures short { length self.now ≤ NAME_BYTES }
        ensures some { 1 ≤ length self.now }
    {
        &self.bytes[..self.len as usize]
    }
}

#[tactic(auto, unfolding(crate::specs::Name::is_letter))]
fn is_letter(byte: u8) -> bool
    ensures { result ≡ is_letter byte }
{
    matches!(byte, b'A'..=b'Z' | b'a'..=b'z')
}

#[tactic(auto, unfolding(crate::specs::Name::is_name_byte))]
fn is_name_byte(byte: u8) -> bool
    ensures { result ≡ is_name_byte byte }
{
    is_letter(byte) || matches!(byte, b'0'..=b'9') || byte == b'_'
}

#[tactic(auto, unfolding(crate::specs::Name::is_fixed_word))]
fn is_fixed_word(word: &[u8]) -> bool
    ensures { result ≡ is_fixed_word word.now }
{
    word == b"lower".as_slice() || word == b"upper".as_slice() || word == b"when".as_slice()
}

fn are_name_bytes(word: &[u8]) -> bool
    ensures { result ≡ list_all is_name_byte word.now }
{
    word.iter().all(|byte| is_name_byte(*byte))
}

#[tactic(auto, unfolding(crate::specs::Name::is_name))]
fn is_name(word: &[u8]) -> bool
    ensures { result ≡ is_name word.now }
{
    1 <= word.len()
        && word.len() <= NAME_BYTES
        && is_letter(word[0])
        && are_name_bytes(word)
        && !is_fixed_word(word)
}

impl PartialEq for Name {
    ghost eq = { bytes_eq };

    ghost laws = { partial_equiv_from_equiv nat_list_eq_equiv };

    fn eq(&self, other: &Name) -> bool {
        self.bytes() == other.bytes()
    }
}

impl Eq for Name {
    ghost laws = { nat_list_eq_equiv };
}

impl Hash for Name {
    ghost hash_input = { fed.slice fed.u8 };

    ghost respects_eq = { (fed.same_Alike (fed.slice fed.u8) bytes_eq-Decides).fed };

    fn hash<H: Hasher>(&self, state: &mut H) {
        self.bytes().hash(state);
    }
}
