// Restrictions: shut events are impossible, and nothing else changes.
use crate::samples::STEADY;
use compositions::restriction::take_up;
use systems::stored_table;
use systems::system::{Role, System};
use unwinding::event_set::EventSet;
use unwinding::reach::reached_count;

#[test]
fn shut_events_keep_their_roles(rt: HostRuntime) {
    let mut shut = EventSet::none();
    shut.insert(2);
    let system = take_up(stored_table::take_up(&STEADY), shut);
    assert_eq!(rt; (system.count(), system.first()), (3, 0));
    assert_eq!(rt; (system.role(2), system.step(0, 2)), (Role::Input, None));
    assert_eq!(rt; (system.step(0, 0), system.step(1, 1)), (Some(0), Some(2)));
    assert_eq!(rt; reached_count(&system), 1);
}

#[test]
fn shutting_nothing_changes_nothing(rt: HostRuntime) {
    let system = take_up(stored_table::take_up(&STEADY), EventSet::none());
    assert_eq!(rt; (system.step(0, 0), system.step(0, 2)), (Some(0), Some(1)));
    assert_eq!(rt; reached_count(&system), 3);
}
