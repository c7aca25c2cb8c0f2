// Listings, ratios, quotes and delivery prices of a ledger (docs/RULES.md, "Listing", "Ratio", "Quote", "Delivery price").
ghost use Rattle.std.specs.Prelude.{◌≡◌};
ghost use Rattle.refusal.specs.Reasons.{answered};
ghost use Rattle.ledger.specs.Listing.{list_refusal, list_state, reweigh_refusal, reweigh_state};
ghost use Rattle.ledger.specs.Quotes.{quote_refusal, quote_state, deliver_refusal, deliver_state};

use super::Ledger;
use crate::listing::{check_list, check_reweigh, listed, reweighed};
use crate::quotes::{check_delivery, check_quote, priced, quoted};
use crate::state::Listing;
use refusal::Refusal;

impl Ledger {
    // A new contract at an empty place.
    pub fn list(&mut self, listing: Listing) -> Result<(), Refusal>
        ensures answer { result ≡ answered (list_refusal self.old.state listing) }
        ensures state { self.new.state ≡ list_state (list_refusal self.old.state listing) self.old.state listing }
    {
        let at = check_list(&self.state, &listing)?;
        self.state = listed(&self.state, at, &listing);
        Ok(())
    }

    // Another margin ratio for a contract, from the next trade and the next settling on.
    pub fn reweigh(&mut self, place: u64, ratio: u64) -> Result<(), Refusal>
        ensures answer { result ≡ answered (reweigh_refusal self.old.state place ratio) }
        ensures state { self.new.state ≡ reweigh_state (reweigh_refusal self.old.state place ratio) self.old.state place ratio }
    {
        let at = check_reweigh(&self.state, place, ratio)?;
        self.state = reweighed(&self.state, at, ratio);
        Ok(())
    }

    // The closing bid and ask so far; 0 is none.
    pub fn quote(&mut self, place: u64, bid: u64, ask: u64) -> Result<(), Refusal>
        ensures answer { result ≡ answered (quote_refusal self.old.state place bid ask) }
        ensures state { self.new.state ≡ quote_state (quote_refusal self.old.state place bid ask) self.old.state place bid ask }
    {
        let at = check_quote(&self.state, place, bid, ask)?;
        self.state = quoted(&self.state, at, bid, ask);
        Ok(())
    }

    // The price at which a contract is settled on its last day.
    pub fn deliver(&mut self, place: u64, price: u64) -> Result<(), Refusal>
        ensures answer { result ≡ answered (deliver_refusal self.old.state place price) }
        ensures state { self.new.state ≡ deliver_state (deliver_refusal self.old.state place price) self.old.state place price }
    {
        let at = check_delivery(&self.state, place, price)?;
        self.state = priced(&self.state, at, price);
        Ok(())
    }
}
