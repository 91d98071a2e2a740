// Document 01's table of fixed examples, and worked cases beside it. The contract of `rows` is the
// one claim through which they are proved.
#![tactic(auto)]

ghost use Rattle.std.specs.Prelude.{◌≡◌, T, length};
ghost use Rattle.examples.specs.Table.{right, all, table};

// How many rows the table has. Each of them is right.
pub fn rows() -> usize
    ensures { (result ≡ length table) × T (all right table) }
{
    33
}
