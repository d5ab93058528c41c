//! A text that is laid out token by token.

ghost use Rattle.std.specs.Prelude.{◌≡◌, ◌++◌, ◌∷◌, [], pos, ◌≤◌, length, IfOk, OnOk};
ghost use Rattle.csl_tree.specs.declared.token.TokenKind.TheVariants as kind;
ghost use Rattle.csl_print.specs.Layout.{adds, put, gap_bytes, nothing, IsShown};
ghost use Rattle.csl_print.specs.Canonical.{blanks};

use crate::spelling::{mark_text, word_text};
use crate::turn::{Gap, Turn, enclosed, gap_behind, nested, set_in, turn_of_mark, turn_of_word};
use cal_terms::NoMemory;
use csl_tree::name::Name;
use csl_tree::token::{Keyword, Mark};
use itoa::Buffer;
use std::alloc::Global;
use std::marker::Model;

/// A text to which tokens are added. Contracts see it as what is laid out.
#[derive(Drop)]
pub struct Printer {
    text: Vec<u8>,
    depth: usize,
    parens: usize,
    gap: Gap,
}

impl Model for Printer {
    ghost use Rattle.std.specs.Prelude.{◌≤◌, length};
    ghost use Rattle.csl_print.specs.Layout.{Laid};

    ghost Value = { Laid };

    ghost view = { λ p. record { text = p.text.items; depth = p.depth; parens = p.parens; gap = p.gap } };

    ghost invariant = { λ p. (p.depth ≤ length p.text.items) × (p.parens ≤ length p.text.items) };
}

/// Writes blanks, two for each step.
fn write_blanks(text: &mut Vec<u8>, steps: usize) -> Result<(), NoMemory>
    ensures written { OnOk result (text.new.items ≡ text.old.items ++ blanks steps) }
    ensures longer { length text.old.items ≤ length text.new.items }
{
    for _written in 0..steps {
        text.extend_from_slice(b"  ")?;
    }
    Ok(())
}

/// Writes what comes between two tokens.
fn write_gap(text: &mut Vec<u8>, gap: Gap, steps: usize) -> Result<(), NoMemory>
    ensures written { OnOk result (text.new.items ≡ text.old.items ++ gap_bytes gap steps) }
    ensures longer { length text.old.items ≤ length text.new.items }
{
    match gap {
        Gap::Start => write_blanks(text, steps),
        Gap::Blank => {
            text.push(b' ')?;
            Ok(())
        }
        Gap::Line => {
            text.push(b'\n')?;
            write_blanks(text, steps)
        }
    }
}

#[tactic(auto, unfolding(crate::specs::Layout::put, crate::specs::Layout::adds))]
impl Printer {
    pub fn new(alloc: Global) -> Printer
        ensures { result ≡ nothing }
    {
        Printer {
            text: Vec::new(alloc),
            depth: 0,
            parens: 0,
            gap: Gap::Start,
        }
    }

    /// Adds a token of these bytes.
    fn put(&mut self, turn: Turn, bytes: &[u8]) -> Result<(), NoMemory>
        requires { IsShown turn bytes.now }
        ensures { OnOk result (self.new ≡ put self.old turn bytes.now) }
    {
        write_gap(&mut self.text, self.gap, set_in(turn, self.depth))?;
        self.text.extend_from_slice(bytes)?;
        self.gap = gap_behind(turn, self.parens);
        self.depth = nested(turn, self.depth);
        self.parens = enclosed(turn, self.parens);
        Ok(())
    }

    pub fn mark(&mut self, mark: Mark) -> Result<(), NoMemory>
        ensures { OnOk result (self.new ≡ adds self.old (kind.Mark mark)) }
    {
        self.put(turn_of_mark(mark), mark_text(mark))
    }

    pub fn word(&mut self, word: Keyword) -> Result<(), NoMemory>
        ensures { OnOk result (self.new ≡ adds self.old (kind.Word word)) }
    {
        self.put(turn_of_word(word), word_text(word))
    }

    pub fn name(&mut self, name: &Name) -> Result<(), NoMemory>
        ensures { OnOk result (self.new ≡ adds self.old (kind.Named name.now)) }
    {
        self.put(Turn::Stays, name.text.as_slice())
    }

    pub fn number(&mut self, number: i64) -> Result<(), NoMemory>
        ensures { OnOk result (self.new ≡ adds self.old (kind.Number number)) }
    {
        let mut buffer = Buffer::new();
        self.put(Turn::Stays, buffer.format(number).as_bytes())
    }

    /// A number that is not negative.
    pub fn magnitude(&mut self, size: u64) -> Result<(), NoMemory>
        ensures { OnOk result (self.new ≡ adds self.old (kind.Number (pos size))) }
    {
        let mut buffer = Buffer::new();
        self.put(Turn::Stays, buffer.format(size).as_bytes())
    }

    /// A text between quotes.
    pub fn quoted(&mut self, text: &Name) -> Result<(), NoMemory>
        ensures { OnOk result (self.new ≡ adds self.old (kind.Text text.now)) }
    {
        write_gap(&mut self.text, self.gap, self.depth)?;
        self.text.push(b'"')?;
        self.text.extend_from_slice(text.text.as_slice())?;
        self.text.push(b'"')?;
        self.gap = Gap::Blank;
        Ok(())
    }

    /// The whole text. A line ends behind the last token.
    pub fn finish(self) -> Result<Vec<u8>, NoMemory>
        ensures { IfOk result (λ text. text.items ≡ self.text ++ 10 ∷ []) }
    {
        let Printer { mut text, .. } = self;
        text.push(b'\n')?;
        Ok(text)
    }
}
