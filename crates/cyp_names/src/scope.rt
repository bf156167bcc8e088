ghost use Rattle.std.specs.Prelude.{IfOk, OnErr, OnOk, [], length, ◌<◌, ◌∷◌, ◌++◌, ◌≡◌, ◌≤◌};
ghost use Rattle.std.specs.List.{list_any};
ghost use Rattle.std.specs.Str.{bytes_eq};
ghost use Rattle.cyp_term.specs.Terms.{sort_eq, with_all_new, with_new, without_repeats};
ghost use Rattle.cyp_names.specs.ReadTerms.{rank_of, sort_in, var_named};
ghost use Rattle.cyp_names.specs.Specifications.{count_sort};
ghost use Rattle.cyp_names.specs.Uses.{same_name};

use crate::uses::NamedUse;
use cyp_lex::Name;
use cyp_term::{NoMemory, Sort, Var};
use std::alloc::Global;
use std::marker::Model;

/// Different names with their sorts, in the order of their first occurrence.
#[derive(Drop)]
pub struct Scope<'a> {
    uses: Vec<NamedUse<'a>>,
}

impl<'a> Model for Scope<'a> {
    ghost use Rattle.cyp_names.specs.ReadTerms.{Scope};

    ghost Value = { Scope };

    ghost view = { λ s. s.uses.items };
}

/// Whether both are the same name.
fn is_name(a: &Name, b: &Name) -> bool
    ensures { result ≡ bytes_eq a.now b.now }
{
    a.as_slice() == b.as_slice()
}

impl<'a> Scope<'a> {
    /// A scope without names.
    pub fn new(alloc: Global) -> Scope<'a>
        ensures { result ≡ [] }
    {
        Scope {
            uses: Vec::new(alloc),
        }
    }

    /// How many names there are.
    pub fn len(&self) -> usize
        ensures { result ≡ length self.now }
    {
        self.uses.len()
    }

    /// The names with their sorts.
    pub fn uses(&self) -> &[NamedUse<'a>]
        ensures { result.now ≡ self.now }
    {
        self.uses.as_slice()
    }

    /// Whether there is such a name.
    fn has(&self, name: &NamedUse<'_>) -> bool
        ensures { result ≡ list_any (same_name name.now) self.now }
    {
        self.uses
            .iter()
            .any(|other| is_name(&name.name().text, &other.name().text))
    }

    /// Adds a name that isn't there yet.
    fn add(&mut self, name: NamedUse<'a>) -> Result<(), NoMemory>
        ensures added { OnOk result (self.new ≡ with_new same_name self.old name.entry) }
        ensures kept { OnErr result (self.new ≡ self.old) }
    {
        if !self.has(&name) {
            self.uses.push(name)?;
        }
        Ok(())
    }

    /// The scope with each name that isn't there yet.
    pub fn with_all(self, names: Vec<NamedUse<'a>>) -> Result<Scope<'a>, NoMemory>
        ensures { IfOk result (λ s. s ≡ with_all_new same_name self.entry names.entry.items) }
    {
        let mut scope = self;
        for name in names {
            scope.add(name)?;
        }
        Ok(scope)
    }

    /// How many names there are of the sort.
    pub fn count(&self, sort: Sort) -> usize
        ensures { result ≡ count_sort sort self.now }
    {
        self.uses.iter().filter(|u| u.sort() == sort).count()
    }

    /// The sort of the name; an integer, where there is no such name.
    pub fn sort_of(&self, name: &Name) -> Sort
        ensures { result ≡ sort_in self.now name.now }
    {
        for other in self.uses.as_slice() {
            if is_name(&other.name().text, name) {
                return other.sort();
            }
        }
        Sort::Int
    }

    /// How many names of the sort stand before this one.
    fn rank(&self, sort: Sort, name: &Name) -> usize
        ensures within { result ≤ length self.now }
        ensures rank { result ≡ rank_of sort self.now name.now }
    {
        let mut rank = 0;
        for other in self.uses.as_slice() {
            if is_name(&other.name().text, name) {
                return rank;
            }
            if other.sort() == sort {
                rank += 1;
            }
        }
        rank
    }

    /// The variable of the name. Each sort is numbered from 0.
    pub fn var_named(&self, name: &Name) -> Var
        requires { length self.now ≤ 255 }
        ensures { result ≡ var_named self.now name.now }
    {
        let sort = self.sort_of(name);
        let number = self.rank(sort, name) as u8;
        Var { sort, number }
    }
}
