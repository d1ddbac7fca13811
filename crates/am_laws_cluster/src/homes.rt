//! Every message of a history comes from a declared endpoint and goes to one, and endpoints lie where their network has them. Each law is the contract of a function with
//! an empty body.

ghost use Rattle.am_laws_cluster.specs.Homes.Homes.{FitsNetwork, IsAddressed};
ghost use Rattle.am_model.specs.Endpoint.{front};
ghost use Rattle.am_model.specs.History.{IsHistory, state_of};
ghost use Rattle.am_model.specs.Layout.{Layout};
ghost use Rattle.am_model.specs.PostOffice.{WasAccepted};
ghost use Rattle.am_model.specs.declared.Queued.{Queued};
ghost use Rattle.am_names.specs.declared.EndpointId.{EndpointId};
ghost use Rattle.am_names.specs.declared.Message.{Message};
ghost use Rattle.am_office_entries.specs.declared.Entry.{Entry};
ghost use Rattle.std.specs.Prelude.{◌≡◌, List, Some};

/// Every message that a history accepts comes from a declared endpoint and goes to one.
pub fn messages_are_addressed()
    ensures { (layout : Layout) (past : List Entry) → IsHistory layout past → (m : Message) → WasAccepted past m → IsAddressed layout m }
{}

/// So the front message of an endpoint has a destination.
pub fn front_is_addressed()
    ensures { (layout : Layout) (past : List Entry) → IsHistory layout past → (e : EndpointId) (q : Queued) → front (state_of layout past e) ≡ Some q → IsAddressed layout q.message }
{}

/// Endpoints lie in the direct network where the cluster is one, and nowhere else.
pub fn places_fit_the_network()
    ensures { (layout : Layout) (past : List Entry) → IsHistory layout past → FitsNetwork layout past }
{}
