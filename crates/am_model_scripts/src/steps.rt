//! What the lines of a step script make is the one history that follows them. Each law is the contract of a function
//! with an empty body.

ghost use Rattle.am_model_scripts.specs.Steps.Laws.{AreInRange, IsMade};
ghost use Rattle.am_model.specs.History.{IsHistory};
ghost use Rattle.am_model.specs.Layout.{Layout};
ghost use Rattle.am_model.specs.Steps.{FollowsSteps, Made, made};
ghost use Rattle.am_office_entries.specs.declared.Entry.{Entry};
ghost use Rattle.am_office_entries.specs.declared.Event.{Event};
ghost use Rattle.std.specs.Prelude.{◌≡◌, List};

/// The entries that steps in range make are a history that follows them: all, or those before the first that is stopped.
pub fn steps_make_one_history()
    ensures { (layout : Layout) (events : List Event) → AreInRange layout events → IsMade layout events (made layout events) }
{}

/// Nothing else is made of the steps: what is said of their entries and of what stops them determines both.
pub fn steps_make_no_other()
    ensures { (layout : Layout) (events : List Event) (m : Made) → IsMade layout events m → m ≡ made layout events }
{}

/// There is no other history that follows the same steps.
pub fn histories_of_steps_agree()
    ensures { (layout : Layout) (events : List Event) (one other : List Entry) → IsHistory layout one → FollowsSteps events one → IsHistory layout other → FollowsSteps events other → one ≡ other }
{}
