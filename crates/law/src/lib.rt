// What holds of a book whatever is tried of it (docs/PROMISES.md, "The law").
#![tactic(auto)]

ghost use Rattle.std.specs.Prelude.{◌≡◌};
ghost use Rattle.ledger.specs.Questions.{funds_at};
ghost use Rattle.law.specs.Law.{BooksBalance, Told};

use book::book::Book;
use ledger::state::Funds;
use refusal::Refusal;

// An account's available funds, margin, equity and cash call, in units, as the print-out asks for them. Whatever led to
// this book, they are what the accepted calls come to and what the archive says.
#[tactic(auto, using(crate::proofs::Balance::told))]
pub fn funds(book: &Book, account: u64) -> Result<Funds, Refusal>
    ensures value { result ≡ funds_at book.now.ledger.state account }
    ensures told { Told book.now.desk book.now.ledger.state account result }
    ensures law { BooksBalance }
{
    book.funds(account)
}
