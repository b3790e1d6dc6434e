// What a cache remembers: measurements that were answered, the oldest first, 64 at most.
ghost use Rattle.std.specs.Prelude.{◌≡◌, ◌≤◌, true, [], IfSome, IfOk, Some, None, Ok, length};
ghost use Rattle.tree.specs.Bits.{is_number};
ghost use Rattle.tree.specs.Questions.{every_number};
ghost use Rattle.tree.specs.Meaning.{Means, measures};
ghost use Rattle.layers.specs.Remembering.{recalled, remembering, AllRight};

use circular_buffer::HeapCircularBuffer;
use geometry::Size;
use std::alloc::{AllocError, Global};
use std::marker::Model;
use tree::question::{Question, answers_for};

// A measurement, and its answer. A recorded host has such a record of its own, since the layers stand on no host.
#[derive(Clone, Copy)]
pub struct Remembered {
    pub question: Question,
    pub size: Size<f32>,
}

// Its places are reserved when it is made, so that remembering never wants memory. A contract sees the measurements, the oldest first.
#[derive(Drop)]
pub struct Memory {
    entries: HeapCircularBuffer<Remembered>,
}

impl Model for Memory {
    ghost use Rattle.std.specs.Prelude.{◌≡◌, ◌≤◌, List, length};
    ghost use Rattle.layers.specs.declared.memory.Remembered.{Remembered};

    ghost Value = { List Remembered };

    ghost view = { λ m. m.entries.items };

    ghost invariant = { λ m. (m.entries.capacity ≡ 64) × (length m.entries.items ≤ 64) };
}

impl Memory {
    pub const PLACES: usize = 64;

    pub fn new(heap: Global) -> Result<Memory, AllocError>
        ensures { IfOk result (λ m. m ≡ []) }
    {
        let entries = HeapCircularBuffer::with_capacity(heap, Memory::PLACES)?;
        Ok(Memory { entries })
    }

    // How many measurements it remembers. Callers learn from it that there are never more than there are places.
    pub fn len(&self) -> usize
        ensures value { result ≡ length self.now }
        ensures few { length self.now ≤ 64 }
    {
        self.entries.len()
    }

    // The answer to the first measurement that answers for the question.
    pub fn recall(&self, asked: Question) -> Option<Size<f32>>
        ensures found { result ≡ recalled self.now asked }
        ensures right { (m : Means) → AllRight m self.now → IfSome result (λ s. measures m asked ≡ Ok s) }
    {
        self.entries
            .iter()
            .find(|entry| answers_for(entry.question, asked))
            .map(|entry| entry.size)
    }

    // Remembers one more measurement, in place of the oldest where all places are taken. A question with a NaN is not remembered.
    pub fn remember(&mut self, question: Question, size: Size<f32>)
        ensures list { self.new ≡ remembering self.old question size }
        ensures right { (m : Means) → AllRight m self.old → measures m question ≡ Ok size → AllRight m self.new }
        ensures last { recalled self.old question ≡ None → every_number is_number question ≡ true → recalled self.new question ≡ Some size }
    {
        if question.is_free_of_nan() {
            self.entries.push_back(Remembered { question, size });
        }
    }
}
