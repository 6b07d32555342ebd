//! What an acceptor hands on, said of events (PS3.8, section 9.2).

ghost use Rattle.std.specs.Prelude.{◌≡◌, ◌≢◌, List, Option, Some, None};
ghost use Rattle.pdu.specs.declared.pdv.Pdv.{Pdv};
ghost use Rattle.pdu.specs.declared.value.Pdu.TheVariants.{PData};
ghost use Rattle.ul_state.specs.declared.acceptor.Settled.{Settled};
ghost use Rattle.ul_state.specs.declared.event.Action.TheVariants.{Hand};
ghost use Rattle.ul_state.specs.declared.event.Event.{Event};
ghost use Rattle.ul_state.specs.declared.event.Event.TheVariants.{Got};
ghost use Rattle.ul_state.specs.declared.table.State.{State};
ghost use Rattle.ul_state.specs.declared.table.State.TheVariants.{Sta6, Sta13};
ghost use Rattle.ul_state.specs.declared.titles.Title.{Title};
ghost use Rattle.ul_state.specs.Acceptor.{action_on, state_on, state_after_events, settled_by};

/// In an association the values of a P-DATA-TF are handed on, none or many, and nothing changes.
pub fn a_p_data_is_handed_on_whole<V: Copy>()
    ensures handed { (titles : List (Title V)) (values : List Pdv) →
        action_on Sta6 titles (Got (PData values)) ≡ Some (Hand values) }
    ensures open { (titles : List (Title V)) (values : List Pdv) →
        state_on Sta6 titles (Got (PData values)) ≡ Sta6 }
    ensures settled { (titles : List (Title V)) (values : List Pdv) (old : Option (Settled V)) →
        settled_by Sta6 titles (Got (PData values)) old ≡ old }
{}

/// After goodbye a P-DATA-TF is ignored, and nothing changes.
pub fn a_p_data_is_ignored_after_goodbye<V: Copy>()
    ensures ignored { (titles : List (Title V)) (values : List Pdv) →
        action_on Sta13 titles (Got (PData values)) ≡ None }
    ensures closing { (titles : List (Title V)) (values : List Pdv) →
        state_on Sta13 titles (Got (PData values)) ≡ Sta13 }
    ensures settled { (titles : List (Title V)) (values : List Pdv) (old : Option (Settled V)) →
        settled_by Sta13 titles (Got (PData values)) old ≡ old }
{}

/// Values are handed on in an association alone, and they are those of the P-DATA-TF that came.
pub fn only_a_p_data_of_an_association_is_handed_on<V: Copy>()
    ensures open { (state : State) (titles : List (Title V)) (event : Event) (values : List Pdv) →
        action_on state titles event ≡ Some (Hand values) → state ≡ Sta6 }
    ensures data { (state : State) (titles : List (Title V)) (event : Event) (values : List Pdv) →
        action_on state titles event ≡ Some (Hand values) → event ≡ Got (PData values) }
{}

/// Once goodbye is said no event hands values on, whatever came before it.
pub fn no_event_after_goodbye_hands_on<V: Copy>()
    ensures { (titles : List (Title V)) (events : List Event) (event : Event) (values : List Pdv) →
        action_on (state_after_events Sta13 titles events) titles event ≢ Some (Hand values) }
{}
