//! The rows that answer a query, in order.

ghost use Rattle.std.specs.Prelude.{◌≡◌, ◌++◌, ◌∷◌, [], length, IfOk, OnOk, OnErr, None, option_to_list};
ghost use Rattle.data_set.specs.declared.syntax.Syntax.TheVariants.{Explicit};

use crate::answer::Answer;
use crate::block::Block;
use data_set::{DataSet, write};
use std::alloc::{AllocError, Global};
use std::collections::VecDeque;
use std::marker::Model;
use std::mem;

/// Rows that are put together, in order. Contracts see the list of them.
///
/// All rows of a query are held until they are told. So their texts lie one behind the other in
/// buffers of 64 KB, and no row has memory of its own.
#[derive(Drop)]
pub struct AnswersMut {
    alloc: Global,
    full: VecDeque<Block>,
    last: Block,
}

impl Model for AnswersMut {
    ghost use Rattle.std.specs.Prelude.{List};
    ghost use Rattle.std.specs.Coded.{coded_list};
    ghost use Rattle.data_set.specs.Set.{Set, set_code};
    ghost use Rattle.archive_model.specs.Answer.{sets_of_full};

    ghost Value = { List Set };

    ghost coded = { coded_list set_code };

    ghost view = { λ a. sets_of_full a.full.items a.last };
}

/// Rows that are told one after the other. Contracts see the list of those that are left.
#[derive(Drop)]
pub struct Answers {
    first: Block,
    rest: VecDeque<Block>,
}

impl Model for Answers {
    ghost use Rattle.std.specs.Prelude.{List};
    ghost use Rattle.std.specs.Coded.{coded_list};
    ghost use Rattle.data_set.specs.Set.{Set, set_code};
    ghost use Rattle.archive_model.specs.Answer.{sets_of_rest};

    ghost Value = { List Set };

    ghost coded = { coded_list set_code };

    ghost view = { λ a. sets_of_rest a.first a.rest.items };
}

impl AnswersMut {
    /// No rows. It takes no memory.
    pub fn new(alloc: Global) -> AnswersMut
        ensures { result ≡ [] }
    {
        AnswersMut {
            alloc,
            full: VecDeque::new(alloc),
            last: Block::new(alloc),
        }
    }

    /// Begins another buffer.
    fn begin(&mut self) -> Result<(), AllocError>
        ensures same { self.new ≡ self.old }
    {
        let next = Block::with_room(self.alloc)?;
        let last = mem::replace(&mut self.last, next);
        if let Err(refused) = self.full.push_back(last) {
            self.last = refused.value;
            return Err(AllocError);
        }
        Ok(())
    }

    /// Puts the row of a data set behind the others.
    pub fn push(&mut self, set: &DataSet) -> Result<(), AllocError>
        requires { set.now.syntax ≡ Explicit }
        ensures pushed { OnOk result (self.new ≡ self.old ++ set.now ∷ []) }
        ensures kept { OnErr result (self.new ≡ self.old) }
    {
        let text = write(self.alloc, set)?;
        if !self.last.has_room(text.len()) {
            self.begin()?;
        }
        self.last.put(text.as_slice())
    }

    /// The rows, in the same buffers.
    pub fn freeze(self) -> Result<Answers, AllocError>
        ensures { IfOk result (λ answers. answers ≡ self) }
    {
        let AnswersMut {
            alloc,
            mut full,
            last,
        } = self;
        full.push_back(last)?;
        Ok(Answers {
            first: Block::new(alloc),
            rest: full,
        })
    }
}

impl Answers {
    /// No rows. It takes no memory.
    pub fn new(alloc: Global) -> Answers
        ensures { result ≡ [] }
    {
        Answers {
            first: Block::new(alloc),
            rest: VecDeque::new(alloc),
        }
    }

    /// Takes out the next row. A buffer is let go with the last of its rows.
    pub fn next(&mut self) -> Result<Option<Answer>, AllocError>
        ensures parts { IfOk result (λ row. self.old ≡ option_to_list row ++ self.new) }
        ensures none { IfOk result (λ row. row ≡ None → length self.new ≡ 0) }
        ensures kept { OnErr result (self.new ≡ self.old) }
    {
        loop {
            if let Some(row) = self.first.next()? {
                return Ok(Some(row));
            }
            match self.rest.pop_front() {
                None => return Ok(None),
                Some(block) => self.first = block,
            }
        }
    }

    /// The rows that are left, as a list.
    pub fn into_vec(mut self, alloc: Global) -> Result<Vec<Answer>, AllocError>
        ensures { IfOk result (λ rows. rows.items ≡ self) }
    {
        let mut rows = Vec::new(alloc);
        while let Some(row) = self.next()? {
            rows.push(row)?;
        }
        Ok(rows)
    }
}
