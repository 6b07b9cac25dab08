//! The names that a script defines.
//!
//! Names are found by an ordered map. A text can be made whose names all have one hash, and then a map by hashes
//! compares each name with all others.
ghost use Rattle.std.specs.Prelude.{◌≡◌, ◌<◌, ◌^◌, ℕ, List, [], true, length, Some, None, IfOk, OnErr, IsTrue, unwrap_or};
ghost use Rattle.gfx_script_model.specs.Names.{is_name};
ghost use Rattle.gfx_script_model.specs.Scripts.{number_of, may_use};
ghost use Rattle.std.specs.BTreeMap.{get, IsUnchanged};
ghost use Rattle.gfx_script.specs.Keys.{key_cmp};
ghost use Rattle.gfx_script.specs.Numbered.{Defines, PutsPlace};

use crate::key::Key;
use std::alloc::{AllocError, Global};
use std::collections::BTreeMap;
use std::marker::Model;

/// A name, and where it was defined.
#[derive(Clone, Copy)]
struct Definition<'t> {
    name: &'t [u8],
    phase: usize,
    thread: u32,
}

impl<'t> Definition<'t> {
    ghost use Rattle.gfx_script.specs.Numbered.{definition_of};

    // Whether a line of this thread in this phase may use the name.
    fn is_within(&self, phase: usize, thread: u32) -> bool
        ensures { result ≡ may_use phase thread (definition_of self.now) }
    {
        self.phase < phase || self.thread == thread
    }
}

/// The names that were defined so far, in order, each once.
#[derive(Drop)]
pub(crate) struct Names<'t> {
    defined: Vec<Definition<'t>>,
    places: BTreeMap<Key, usize>,
}

impl<'t> Model for Names<'t> {
    ghost use Rattle.std.specs.Prelude.{List, map};
    ghost use Rattle.gfx_script_model.specs.Scripts.{Defined};
    ghost use Rattle.gfx_script.specs.Numbered.{definition_of, ArePlaces};

    ghost Value = { List Defined };

    ghost view = { λ n. map definition_of n.defined.items };

    ghost invariant = { λ n. ArePlaces (map definition_of n.defined.items) n.places };
}

impl<'t> Names<'t> {
    /// No names.
    pub(crate) fn new(alloc: Global) -> Self
        ensures { result ≡ [] }
    {
        Names {
            defined: Vec::new(alloc),
            places: BTreeMap::new(alloc),
        }
    }

    /// Each name is defined once, and the names are fewer than 2^63.
    pub(crate) fn are_numbered(&self)
        ensures once { (phase thread : ℕ) (name : List ℕ) (n : ℕ) → number_of (may_use phase thread) self.now name ≡ Some n → number_of (λ d. true) self.now name ≡ Some n }
        ensures few { length self.now < 2 ^ 63 }
    {
        let _few = self.defined.as_slice().len();
    }

    /// The number of a name, from 1 on, where a line of this thread in this phase may use it.
    pub(crate) fn number(&self, name: &[u8], phase: usize, thread: u32) -> Option<u64>
        requires { IsTrue (is_name name.now) }
        ensures { result ≡ number_of (may_use phase thread) self.now name.now }
    {
        let place = *self.places.get(&Key::of(name))?;
        let definition = self.defined[place];
        if definition.is_within(phase, thread) {
            Some(place as u64 + 1)
        } else {
            None
        }
    }

    /// Defines a name in this phase by this thread, and tells its number. None where it is defined already. After want
    /// of memory nothing is defined.
    pub(crate) fn define(
        &mut self,
        name: &'t [u8],
        phase: usize,
        thread: u32,
    ) -> Result<Option<u64>, AllocError>
        requires { IsTrue (is_name name.now) }
        ensures defines { IfOk result (λ number. Defines phase thread self.old name.now number self.new) }
        ensures err { OnErr result (self.new ≡ self.old) }
    {
        let place = self.defined.len();
        self.defined.push(Definition {
            name,
            phase,
            thread,
        })?;
        match place_or(&mut self.places, Key::of(name), place) {
            Ok(found) => {
                if found == place {
                    return Ok(Some(place as u64 + 1));
                }
                self.defined.pop();
                Ok(None)
            }
            Err(fault) => {
                self.defined.pop();
                Err(fault)
            }
        }
    }
}

// The place of a key, which is this one where it had none.
fn place_or(places: &mut BTreeMap<Key, usize>, key: Key, place: usize) -> Result<usize, AllocError>
    ensures found { IfOk result (λ found. found ≡ unwrap_or (get key_cmp places.old key) place) }
    ensures puts { IfOk result (λ found. PutsPlace key found places.old places.new) }
    ensures err { OnErr result (IsUnchanged places.old places.new) }
{
    match places.insert(key, place) {
        Ok(None) => Ok(place),
        // A key that was there keeps its place.
        Ok(Some(found)) => match places.insert(key, found) {
            Ok(_) => Ok(found),
            Err(_) => unreachable!(),
        },
        Err(_) => Err(AllocError),
    }
}
