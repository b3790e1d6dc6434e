// A text, and the size that it takes.
ghost use Rattle.std.specs.Prelude.{◌≡◌, ℕ, ◌*◌, ◌<◌, ◌≤◌, true, ◌&&◌};
ghost use Rattle.text_host.specs.Texts.{float_of, between, in_bounds, columns_in, columns_for, lines_in, size_in, text_size};

use geometry::Size;
use std::num::{nearest_u32_to_f32, nearest_u64_to_f32, saturating_f32_to_u32};
use style::length::AvailableSpace;
use style::style::Style;
use tables::nodes::OfNode;
use tree::question::Question;

// The text of a node: so many letters in cells of one width, in lines of one height.
#[derive(Clone, Copy)]
pub struct TextRecord {
    pub node: u64,
    pub style: Style,
    // 0 to 8192.
    pub letters: u32,
    // 1 to all letters, 0 where there are none.
    pub longest_word: u32,
    // 1 to 128 pixels each.
    pub cell_width: u32,
    pub line_height: u32,
}

impl OfNode for TextRecord {
    ghost names = { λ t. t.node };

    fn node(&self) -> u64 {
        self.node
    }
}

// So many of so many pixels each.
fn pixels(count: u32, each: u32) -> f32
    ensures { result ≡ float_of (count * each) }
{
    nearest_u64_to_f32(u64::from(count) * u64::from(each))
}

// The lines that so many letters take, so many in a line.
#[tactic(auto, using(crate::proofs::Lines::fewest))]
fn lines(letters: u32, columns: u32) -> u32
    requires { 0 < columns }
    ensures value { result ≡ lines_in letters columns }
    ensures enough { letters ≤ result * columns }
    ensures fewest { (n : ℕ) → letters ≤ n * columns → result ≤ n }
{
    letters.div_ceil(columns)
}

impl TextRecord {
    pub fn is_in_bounds(&self) -> bool
        ensures { result ≡ in_bounds self.now }
    {
        (0..=8192).contains(&self.letters)
            && (self.letters.min(1)..=self.letters).contains(&self.longest_word)
            && (1..=128).contains(&self.cell_width)
            && (1..=128).contains(&self.line_height)
    }

    // The whole cells in a width, but no fewer than the longest word has, and no more than all letters.
    fn columns_in(&self, width: f32) -> u32
        ensures value { result ≡ columns_in self.now width }
        ensures held { in_bounds self.now ≡ true → between self.now.longest_word self.now.letters result ≡ true }
    {
        let cells = saturating_f32_to_u32(width / nearest_u32_to_f32(self.cell_width));
        // No `clamp`, which asks that the ends do not cross: in a text out of bounds they may.
        cells.min(self.letters).max(self.longest_word)
    }

    // The letters in a line: by the known width, or else by the available one.
    pub fn columns(&self, known: Option<f32>, available: AvailableSpace) -> u32
        ensures value { result ≡ columns_for self.now known available }
        ensures held { in_bounds self.now ≡ true → between self.now.longest_word self.now.letters result ≡ true }
    {
        match (known, available) {
            (Some(width), _) | (None, AvailableSpace::Definite(width)) => self.columns_in(width),
            (None, AvailableSpace::MinContent) => self.longest_word,
            (None, AvailableSpace::MaxContent) => self.letters,
        }
    }

    // The size in so many columns.
    fn size_in(&self, columns: u32) -> Size<f32>
        requires { 0 < self.now.letters → 0 < columns }
        ensures { result ≡ size_in self.now columns }
    {
        if self.letters == 0 {
            Size::ZERO
        } else {
            Size {
                width: pixels(columns, self.cell_width),
                height: pixels(lines(self.letters, columns), self.line_height),
            }
        }
    }

    // The size that answers a question, where there is an answer.
    #[tactic(auto, unfolding(crate::specs::Texts::text_size))]
    pub fn size(&self, question: Question) -> Option<Size<f32>>
        ensures { result ≡ text_size self.now question }
    {
        (self.is_in_bounds() && question.is_finite()).then(|| {
            let known = question.known_dimensions;
            let columns = self.columns(known.width, question.available_space.width);
            known.unwrap_or(self.size_in(columns))
        })
    }
}
