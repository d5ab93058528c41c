//! Worked examples of canonical texts. They are the contract of a function that does nothing.

ghost use Rattle.csl_print.specs.Rows as rows;

/// Each example is a small program as a tree, and its text.
pub fn worked_rows()
    ensures seven_lines { rows.SevenLines }
    ensures ten_lines { rows.TenLines }
    ensures listed { rows.Listed }
    ensures one_step { rows.OneStep }
{}
