// The best offers of a letter, by keys.
ghost use Rattle.std.specs.Prelude.{◌≡◌, ◌<◌, [], ◌∷◌, length, map, IfOk, IfSome, IfNone, OnOk};
ghost use Rattle.ml_lists.specs.Member.{IsMember};
ghost use Rattle.ml_trace.specs.AutomatonNumbers.{RiseByTarget};
ghost use Rattle.ml_history.specs.History.{IsSmallHistory};
ghost use Rattle.ml_history.specs.HistoryStep.{offers_along, taken_along};
ghost use Rattle.ml_history.specs.private.Keys.{TellOffers, offered_by, IsOffer, wins, put_last, put_some};

use crate::flat::History;
use crate::names::last_name;
use ml_base::NoMemory;
use ml_trace::Transition;
use std::alloc::Global;

/// An offer to a state: the stack of a source, with a new name where the transition accepts.
#[derive(Clone, Copy)]
pub(crate) struct Offer {
    pub(crate) target: u32,
    /// The index of the state whose stack is offered.
    pub(crate) source: usize,
    /// The place of the last name of this stack.
    pub(crate) place: u32,
    pub(crate) accepting: bool,
}

// The offer of the transition, where its source has a stack.
fn offer_along(history: &History, places: &[u32], transition: Transition) -> Option<Offer>
    requires history { IsSmallHistory history.now }
    requires places { TellOffers places.now history.now }
    ensures some { IfSome result (λ o. IsOffer history.now places.now o × (o.target ≡ transition.to) × (offers_along history.now transition ≡ offered_by history.now o ∷ [])) }
    ensures none { IfNone result (offers_along history.now transition ≡ []) }
{
    match history.states().binary_search(&transition.from) {
        Ok(source) => Some(Offer {
            target: transition.to,
            source,
            place: places[last_name(history.stack(source)) as usize],
            accepting: transition.accepting,
        }),
        Err(_) => None,
    }
}

// Whether the first offer has the lesser key: the place of the last name, and then that the transition accepts.
fn wins(o: &Offer, b: &Offer) -> bool
    ensures { result ≡ wins o.now b.now }
{
    o.place < b.place || (o.place == b.place && o.accepting && !b.accepting)
}

// Takes the offer, where the last one has another target or is worse.
fn put(offer: Offer, best: &mut Vec<Offer>) -> Result<(), NoMemory>
    ensures { OnOk result (best.new.items ≡ put_last offer best.old.items) }
{
    let Some(last) = best.last().copied() else {
        best.push(offer)?;
        return Ok(());
    };
    let end = best.len() - 1;
    if last.target != offer.target {
        best.push(offer)?;
    } else if wins(&offer, &last) {
        best[end] = offer;
    }
    Ok(())
}

// The same where there is an offer.
fn put_some(offer: Option<Offer>, best: &mut Vec<Offer>) -> Result<(), NoMemory>
    ensures { OnOk result (best.new.items ≡ put_some offer best.old.items) }
{
    match offer {
        Some(offer) => put(offer, best),
        None => Ok(()),
    }
}

// The best offer to each target of the transitions, which stand by their targets.
pub(crate) fn best_offers(
    alloc: Global,
    history: &History,
    places: &[u32],
    letter: &[Transition],
) -> Result<Vec<Offer>, NoMemory>
    requires history { IsSmallHistory history.now }
    requires places { TellOffers places.now history.now }
    requires letter { RiseByTarget letter.now }
    ensures taken { IfOk result (λ best. map (offered_by history.now) best.items ≡ taken_along history.now letter.now) }
    ensures sources { IfOk result (λ best. (o : Offer) → IsMember o best.items → o.source < length history.now) }
{
    let mut best = Vec::new(alloc);
    for transition in letter {
        put_some(offer_along(history, places, *transition), &mut best)?;
    }
    Ok(best)
}
