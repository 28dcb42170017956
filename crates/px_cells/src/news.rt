// Numbers that are noted, each once.
ghost use Rattle.std.specs.Prelude.{◌≡◌, ◌≢◌, ◌<◌, ℕ, false, nat_eq, length, slice_index_or, All, AllPairs, IfOk};
ghost use Rattle.px_cells.specs.News.{no_news, with_number, with_numbers, noting};
ghost use Rattle.px_cells.specs.Marks.{AreFlagged};

use px_value::NoMemory;
use std::alloc::Global;
use std::marker::Model;

/// Numbers below a count, each once, in the order in which they were noted. No call but `new` takes memory.
#[derive(Drop)]
pub(crate) struct News {
    numbers: Vec<u32>,
    /// Of each number below the count, whether it is noted.
    is_noted: Vec<bool>,
}

impl Model for News {
    ghost use Rattle.px_cells.specs.News.{NewsData};

    ghost Value = { NewsData };

    ghost use Rattle.px_cells.specs.Flags.{news_data, IsFlagged};

    ghost view = { news_data };

    ghost invariant = { IsFlagged };
}

// Takes the flags of these numbers back.
fn unflag(is_noted: &mut [bool], numbers: &[u32])
    requires { AreFlagged is_noted.old numbers.now }
    ensures { (at : ℕ) → slice_index_or is_noted.new at false ≡ false }
{
    for at in numbers {
        is_noted[*at as usize] = false;
    }
}

impl News {
    /// No number below this count is noted.
    pub fn new(alloc: Global, count: usize) -> Result<News, NoMemory>
        ensures { IfOk result (λ made. made ≡ no_news count) }
    {
        Ok(News {
            numbers: Vec::with_capacity(alloc, count)?,
            is_noted: vec![in alloc; false; count]?,
        })
    }

    /// Notes a number.
    pub fn note(&mut self, at: u32)
        requires { at < self.old.count }
        ensures { self.new ≡ noting self.old (with_number self.old.numbers at) }
    {
        if !self.is_noted[at as usize] {
            self.is_noted[at as usize] = true;
            self.numbers.push_reserved(at);
        }
    }

    /// Notes numbers, one after another.
    pub fn note_all(&mut self, numbers: &[u32])
        requires { All (λ at. at < self.old.count) numbers.now }
        ensures { self.new ≡ noting self.old (with_numbers self.old.numbers numbers.now) }
    {
        for at in numbers {
            self.note(*at);
        }
    }

    /// Forgets all numbers.
    pub fn clear(&mut self)
        ensures { self.new ≡ no_news self.old.count }
    {
        unflag(&mut self.is_noted, &self.numbers);
        self.numbers.clear();
    }

    /// The noted numbers.
    pub fn numbers(&self) -> &[u32]
        ensures value { result.now ≡ self.now.numbers }
        ensures once { AllPairs (λ a b. a ≢ b) result.now }
        ensures within { All (λ at. at < self.now.count) result.now }
    {
        &self.numbers
    }
}
