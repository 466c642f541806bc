//! Lists of values that are joined.

ghost use Rattle.std.specs.Prelude.{◌≡◌, Ok};
ghost use Rattle.bast_schema.specs.Tree.{count, none, more, is_none};
ghost use Rattle.bast_schema.specs.Counts.{join};
ghost use Rattle.bast_schema.specs.View.{datum, data_of};
ghost use Rattle.js_tree.specs.Results.{Gives};
ghost use Rattle.js_tree.specs.Runs.{Begins};
ghost use Rattle.js_tree.specs.Parts.{first_value, last_value, one_value};

use crate::fault::Fault;
use bast_schema::Value;
use std::alloc::Global;
use std::marker::Model;

/// A list of values, to which lists are joined in front.
#[derive(Drop)]
pub struct Run {
    // The last value first, so that a list is joined in front of another in the time of its own length.
    backwards: Vec<Value>,
}

impl Model for Run {
    ghost use Rattle.std.specs.Prelude.{reverse};
    ghost use Rattle.bast_schema.specs.Tree.{Data};

    ghost Value = { Data };

    ghost use Rattle.bast_schema.specs.Code.{data_code};

    ghost coded = { data_code };

    ghost use Rattle.bast_schema.specs.View.{data_of};

    ghost view = { λ r. data_of (reverse r.backwards.items) };
}

impl Run {
    /// No values.
    pub(crate) fn new(alloc: Global) -> Run
        ensures { result ≡ none }
    {
        Run {
            backwards: Vec::new(alloc),
        }
    }

    /// The values of a list, in order.
    pub(crate) fn of(mut values: Vec<Value>) -> Run
        ensures { result ≡ data_of values.items }
    {
        values.reverse();
        Run { backwards: values }
    }

    /// The one value, in no more room than it takes.
    pub(crate) fn one(alloc: Global, value: Value) -> Result<Run, Fault>
        ensures { Gives result (λ r. r) (Ok (more (datum value) none)) }
    {
        let mut backwards = Vec::with_capacity(alloc, 1)?;
        backwards.push(value)?;
        Ok(Run { backwards })
    }

    /// The values, in order, in no more room than they take.
    pub(crate) fn into_vec(self) -> Vec<Value>
        ensures { data_of result.items ≡ self }
    {
        let Run { mut backwards } = self;
        backwards.reverse();
        backwards.shrink_to_fit();
        backwards
    }

    /// Whether there is no value.
    #[tactic(auto, using(crate::proofs::Runs::is_none_reverse))]
    pub(crate) fn is_empty(&self) -> bool
        ensures { result ≡ is_none self.now }
    {
        self.backwards.is_empty()
    }

    /// How many values there are.
    #[tactic(auto, using(crate::proofs::Runs::count_reverse))]
    pub(crate) fn len(&self) -> usize
        ensures { result ≡ count self.now }
    {
        self.backwards.len()
    }

    /// Puts a value in front.
    pub(crate) fn put(&mut self, value: Value) -> Result<(), Fault>
        ensures { Gives result (λ _. self.new) (Ok (more (datum value) self.old)) }
    {
        self.backwards.push(value)?;
        Ok(())
    }

    /// Adds a value at the end. Few values may stand before it, which are moved.
    #[tactic(auto, using(crate::proofs::Runs::added))]
    pub(crate) fn add(&mut self, value: Value) -> Result<(), Fault>
        ensures { Gives result (λ _. self.new) (Ok (join self.old (more (datum value) none))) }
    {
        self.backwards.insert(0, value)?;
        Ok(())
    }

    /// Adds a list at the end, in the time of the values before it.
    #[tactic(auto, using(crate::proofs::Runs::joined))]
    pub(crate) fn join(&mut self, behind: Run) -> Result<(), Fault>
        ensures { Gives result (λ _. self.new) (Ok (join self.old behind)) }
    {
        let Run { mut backwards } = behind;
        backwards.append(&mut self.backwards)?;
        self.backwards = backwards;
        Ok(())
    }

    /// Takes off the first value, if there is one.
    pub(crate) fn next(&mut self) -> Option<Value>
        ensures { Begins self.old result self.new }
    {
        self.backwards.pop()
    }

    /// Takes off the first value.
    pub(crate) fn first(&mut self) -> Result<Value, Fault>
        ensures { Gives result (λ v. (datum v, self.new)) (first_value self.old) }
    {
        match self.backwards.pop() {
            Some(value) => Ok(value),
            None => Err(Fault::Broken),
        }
    }

    /// The one value.
    pub(crate) fn only(self) -> Result<Value, Fault>
        ensures { Gives result (λ v. datum v) (one_value self) }
    {
        let mut values = self;
        let value = values.first()?;
        if values.is_empty() {
            Ok(value)
        } else {
            Err(Fault::Broken)
        }
    }

    /// Takes off the last value. Few values may stand before it, which are moved.
    #[tactic(auto, using(crate::proofs::Runs::last_removed))]
    pub(crate) fn last(&mut self) -> Result<Value, Fault>
        ensures { Gives result (λ v. (self.new, datum v)) (last_value self.old) }
    {
        if self.backwards.is_empty() {
            return Err(Fault::Broken);
        }
        Ok(self.backwards.remove(0))
    }
}
