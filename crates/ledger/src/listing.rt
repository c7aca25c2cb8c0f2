// Listing a contract, and a new ratio for one (docs/RULES.md, "Listing", "Ratio").
ghost use Rattle.std.specs.Prelude.{◌≡◌, ◌-◌, None};
ghost use Rattle.ledger.specs.Places.{place_at};
ghost use Rattle.ledger.specs.Seats.{Seated};
ghost use Rattle.ledger.specs.Listing.{bad_number, bad_ratio, bad_terms, list_refusal, list_state, new_contract, reweigh_refusal, at_place, reweighed};

use crate::seat::PlaceSeat;
use crate::state::{Contract, Listing, Stage, State};
use refusal::Refusal;
use rules::limits::Term;
use rules::units::{
    MAX_DAYS, MAX_FEE_FEN, MAX_PRICE_DOLLARS, MAX_RATIO, MIN_PRICE_DOLLARS, MIN_RATIO,
};

// Contract numbers fit two bytes.
const MAX_NUMBER: u64 = 65_535;

fn is_bad_number(highest: u64, number: u64) -> bool
    ensures { result ≡ bad_number highest number }
{
    number <= highest || number > MAX_NUMBER
}

fn is_bad_ratio(ratio: u64) -> bool
    ensures { result ≡ bad_ratio ratio }
{
    !(MIN_RATIO..=MAX_RATIO).contains(&ratio)
}

fn are_bad_terms(day: u64, listing: &Listing) -> bool
    ensures { result ≡ bad_terms day listing.now }
{
    !(MIN_PRICE_DOLLARS..=MAX_PRICE_DOLLARS).contains(&listing.base)
        || is_bad_ratio(listing.ratio)
        || listing.fee > MAX_FEE_FEN
        || listing.delivery > MAX_FEE_FEN
        || listing.last <= day
        || listing.last > MAX_DAYS
}

// The place to list at, or the first reason why not.
pub(crate) fn check_list(state: &State, listing: &Listing) -> Result<PlaceSeat, Refusal>
    ensures { Seated (list_refusal state.now listing.now) listing.now.place result }
{
    if state.stage != Stage::Resting {
        return Err(Refusal::WrongPhase);
    }
    let at = PlaceSeat::try_from(listing.place)?;
    if state.places[at.index()].is_some() {
        return Err(Refusal::PlaceState);
    }
    if is_bad_number(state.highest, listing.number) {
        return Err(Refusal::ContractNumber);
    }
    if are_bad_terms(state.day, listing) {
        return Err(Refusal::ContractTerms);
    }
    Ok(at)
}

fn contract_of(day: u64, listing: &Listing) -> Contract
    ensures { result ≡ new_contract day listing.now }
{
    Contract {
        number: listing.number,
        base: listing.base,
        previous: listing.base,
        ratio: listing.ratio,
        fee: listing.fee,
        delivery: listing.delivery,
        term: Term {
            listed: day,
            last: listing.last,
        },
        quantity: 0,
        value: 0,
        bid: None,
        ask: None,
        price: None,
    }
}

pub(crate) fn listed(state: &State, at: PlaceSeat, listing: &Listing) -> State
    requires { at ≡ listing.now.place - 1 }
    ensures { result ≡ list_state None state.now listing.now }
{
    let mut places = state.places;
    places[at.index()] = Some(contract_of(state.day, listing));
    State {
        highest: listing.number,
        places,
        ..*state
    }
}

pub(crate) fn check_reweigh(state: &State, place: u64, ratio: u64) -> Result<PlaceSeat, Refusal>
    ensures { Seated (reweigh_refusal state.now place ratio) place result }
{
    if state.stage != Stage::Resting {
        return Err(Refusal::WrongPhase);
    }
    let at = PlaceSeat::try_from(place)?;
    if state.places[at.index()].is_none() {
        return Err(Refusal::PlaceState);
    }
    if is_bad_ratio(ratio) {
        return Err(Refusal::ContractTerms);
    }
    Ok(at)
}

pub(crate) fn reweighed(state: &State, at: PlaceSeat, ratio: u64) -> State
    ensures { result ≡ at_place state.now at (place_at state.now at) (λ c. reweighed c ratio) }
{
    state.with_contract(at, |contract| Contract { ratio, ..contract })
}
