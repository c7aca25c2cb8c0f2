// Quotes and delivery prices of a day (docs/RULES.md, "Quote", "Delivery price").
ghost use Rattle.std.specs.Prelude.{◌≡◌, ◌-◌};
ghost use Rattle.rules.specs.declared.limits.Limits.{Limits};
ghost use Rattle.ledger.specs.Places.{limits_of, outside, place_at};
ghost use Rattle.ledger.specs.Seats.{Seated};
ghost use Rattle.ledger.specs.Listing.{at_place};
ghost use Rattle.ledger.specs.Quotes.{quote_of, bad_quote, quote_refusal, quoted, deliver_refusal, delivered_at};

use crate::seat::PlaceSeat;
use crate::state::{Contract, Stage, State};
use refusal::Refusal;
use rules::limits::Limits;
use rules::units::{MAX_PRICE_DOLLARS, MIN_PRICE_DOLLARS};

pub(crate) fn limits(day: u64, contract: &Contract) -> Limits
    ensures { result ≡ limits_of day contract.now }
{
    Limits::on(day, &contract.term, contract.base, contract.previous)
}

pub(crate) fn is_outside(limits: &Limits, price: u64) -> bool
    ensures { result ≡ outside limits.now price }
{
    !(limits.lower..=limits.upper).contains(&price)
}

// A quote of 0 is none, and lies within any limits.
fn is_bad_quote(day: u64, contract: &Contract, quote: u64) -> bool
    ensures { result ≡ bad_quote day (Some contract.now) quote }
{
    quote != 0 && is_outside(&limits(day, contract), quote)
}

fn quote(quote: u64) -> Option<u64>
    ensures { result ≡ quote_of quote }
{
    (quote != 0).then_some(quote)
}

pub(crate) fn check_quote(
    state: &State,
    place: u64,
    bid: u64,
    ask: u64,
) -> Result<PlaceSeat, Refusal>
    ensures { Seated (quote_refusal state.now place bid ask) place result }
{
    if state.stage != Stage::Open {
        return Err(Refusal::WrongPhase);
    }
    let at = PlaceSeat::try_from(place)?;
    let contract = state.contract_at(at)?;
    if is_bad_quote(state.day, &contract, bid) || is_bad_quote(state.day, &contract, ask) {
        return Err(Refusal::PriceLimits);
    }
    Ok(at)
}

pub(crate) fn quoted(state: &State, at: PlaceSeat, bid: u64, ask: u64) -> State
    ensures { result ≡ at_place state.now at (place_at state.now at) (quoted bid ask) }
{
    state.with_contract(
        at,
        |contract| Contract {
            bid: quote(bid),
            ask: quote(ask),
            ..contract
        },
    )
}

pub(crate) fn check_delivery(state: &State, place: u64, price: u64) -> Result<PlaceSeat, Refusal>
    ensures { Seated (deliver_refusal state.now place price) place result }
{
    if state.stage != Stage::Open {
        return Err(Refusal::WrongPhase);
    }
    let at = PlaceSeat::try_from(place)?;
    let contract = state.contract_at(at)?;
    if contract.term.last != state.day {
        return Err(Refusal::DeliveryPrice);
    }
    if !(MIN_PRICE_DOLLARS..=MAX_PRICE_DOLLARS).contains(&price) {
        return Err(Refusal::PriceLimits);
    }
    Ok(at)
}

pub(crate) fn priced(state: &State, at: PlaceSeat, price: u64) -> State
    ensures { result ≡ at_place state.now at (place_at state.now at) (delivered_at price) }
{
    state.with_contract(
        at,
        |contract| Contract {
            price: Some(price),
            ..contract
        },
    )
}
