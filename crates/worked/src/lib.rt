// Worked examples of document 01, each the contract of a function that does nothing.
#![tactic(auto)]

ghost use Rattle.worked.specs.Worked.{Worked};
ghost use Rattle.worked.specs.Pages.{TwoPages};

// The eleven marked ones.
pub fn worked()
    ensures { Worked }
{}

// A total of four bytes over two pages.
pub fn two_pages()
    ensures { TwoPages }
{}
