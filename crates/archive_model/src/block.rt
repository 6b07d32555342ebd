//! Rows whose texts lie one behind the other in one buffer.

ghost use Rattle.std.specs.Prelude.{◌≡◌, ◌++◌, ◌∷◌, [], length, IfOk, OnOk, OnErr, None, option_to_list};
ghost use Rattle.archive_model.specs.Answer.{set_in, IsWritten};

use crate::answer::Answer;
use bytes::BytesMut;
use std::alloc::{AllocError, Global};
use std::collections::VecDeque;
use std::marker::Model;

/// How many bytes a buffer has room for, but for a row that is longer: 64 KB.
const ROOM: usize = 65_536;

/// Rows, each with the length of its text. Contracts see the list of them.
#[derive(Drop)]
pub(crate) struct Block {
    text: BytesMut,
    sizes: VecDeque<usize>,
}

impl Model for Block {
    ghost use Rattle.std.specs.Prelude.{List};
    ghost use Rattle.std.specs.Coded.{coded_list};
    ghost use Rattle.data_set.specs.Set.{Set, set_code};
    ghost use Rattle.archive_model.specs.Answer.{sets_in, IsCut};

    ghost Value = { List Set };

    ghost coded = { coded_list set_code };

    ghost view = { λ b. sets_in b.sizes.items b.text.items };

    ghost invariant = { λ b. IsCut b.sizes.items b.text.items };
}

impl Block {
    /// No rows. It takes no memory.
    pub(crate) fn new(alloc: Global) -> Block
        ensures { result ≡ [] }
    {
        Block {
            text: BytesMut::new(alloc),
            sizes: VecDeque::new(alloc),
        }
    }

    /// No rows, with all the room.
    pub(crate) fn with_room(alloc: Global) -> Result<Block, AllocError>
        ensures { IfOk result (λ block. block ≡ []) }
    {
        Ok(Block {
            text: BytesMut::with_capacity(alloc, ROOM)?,
            sizes: VecDeque::new(alloc),
        })
    }

    /// Whether a text of so many bytes has room, or is the first.
    pub(crate) fn has_room(&self, size: usize) -> bool {
        self.sizes.is_empty() || size <= ROOM.saturating_sub(self.text.len())
    }

    /// Puts a row behind the others.
    pub(crate) fn put(&mut self, text: &[u8]) -> Result<(), AllocError>
        requires { IsWritten text.now }
        ensures put { OnOk result (self.new ≡ self.old ++ set_in text.now ∷ []) }
        ensures kept { OnErr result (self.new ≡ self.old) }
    {
        self.sizes.push_back(text.len())?;
        if let Err(refused) = self.text.extend_from_slice(text) {
            self.sizes.pop_back();
            return Err(refused);
        }
        Ok(())
    }

    /// Takes out the first row.
    pub(crate) fn next(&mut self) -> Result<Option<Answer>, AllocError>
        ensures parts { IfOk result (λ row. self.old ≡ option_to_list row ++ self.new) }
        ensures none { IfOk result (λ row. row ≡ None → length self.new ≡ 0) }
        ensures kept { OnErr result (self.new ≡ self.old) }
    {
        let Some(size) = self.sizes.front() else {
            return Ok(None);
        };
        let text = self.text.freeze_to(*size)?;
        self.sizes.pop_front();
        Ok(Some(Answer::of(text)))
    }
}
