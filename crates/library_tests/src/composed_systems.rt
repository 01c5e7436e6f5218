// Compositions: refusals in their order, who moves by which event, and piles of them.
use crate::samples::{STEADY, refusal, two_users};
use components::duty;
use compositions::composition::{check as check_composition, take_up};
use compositions::restriction;
use systems::chart::Chart;
use systems::stored_table;
use systems::system::{Role, System};
use unwinding::event_set::EventSet;
use unwinding::reach::reached_count;

// A monitor of so many users with one act of user 0, in activity 0.
fn monitor_of(users: u8, event: u8) -> duty::monitor::DutyMonitor {
    let mut bytes = [0; 65];
    bytes[0] = users;
    if event < 64 {
        bytes[1 + usize::from(event)] = 1;
    }
    duty::take_up(&bytes)
}

#[test]
fn states_are_counted_before_roles(rt: HostRuntime) {
    let table = stored_table::take_up(&STEADY);
    assert_eq!(rt;
        refusal(check_composition(&table, &monitor_of(1, 0))),
        (0, 0),
        "output beside input"
    );
    assert_eq!(rt;
        refusal(check_composition(&monitor_of(1, 0), &table)),
        (0, 0),
        "input beside output"
    );
    assert_eq!(rt;
        refusal(check_composition(&table, &monitor_of(1, 1))),
        (19, 1),
        "internal beside input"
    );
    assert_eq!(rt;
        refusal(check_composition(&table, &monitor_of(4, 2))),
        (19, 2),
        "input beside input, 243 states"
    );
    assert_eq!(rt;
        refusal(check_composition(&table, &monitor_of(5, 2))),
        (18, 0),
        "729 states"
    );
}

#[test]
fn an_event_of_one_part_moves_that_part_alone(rt: HostRuntime) {
    let system = take_up(stored_table::take_up(&STEADY), monitor_of(1, 9));
    assert_eq!(rt; (system.count(), system.first()), (9, 0));
    assert_eq!(rt; system.step(0, 2), Some(3), "the table from 0 to 1");
    assert_eq!(rt; system.step(3, 9), Some(4), "the user acts");
    assert_eq!(rt;
        (system.role(2), system.role(9)),
        (Role::Input, Role::Input)
    );
    assert_eq!(rt;
        (system.step(0, 8), system.role(8)),
        (None, Role::Absent),
        "of neither part"
    );
    assert_eq!(rt;
        (system.step(9, 9), system.step(255, 2)),
        (None, None),
        "no such state"
    );
}

#[test]
fn a_shared_event_moves_both_or_is_impossible(rt: HostRuntime) {
    let mut bytes = [0; 65];
    bytes[0] = 1;
    bytes[1] = 1;
    bytes[10] = 2;
    let system = take_up(stored_table::take_up(&STEADY), duty::take_up(&bytes));
    assert_eq!(rt; system.role(0), Role::Internal);
    assert_eq!(rt;
        system.step(0, 0),
        Some(1),
        "the table stays in 0 by its own step"
    );
    assert_eq!(rt; system.step(3, 0), None, "the table has no such step in 1");
    assert_eq!(rt;
        (system.step(0, 9), system.step(2, 0)),
        (Some(2), None),
        "the monitor has none"
    );
}

#[test]
fn refused_parts_are_taken_up_bare(rt: HostRuntime) {
    let system = take_up(stored_table::take_up(&STEADY), monitor_of(5, 0));
    assert_eq!(rt; (system.count(), system.first()), (1, 0));
    assert_eq!(rt; (system.role(0), system.step(0, 0)), (Role::Absent, None));
}

#[test]
fn a_pile_three_high_answers_as_its_parts_do(rt: HostRuntime) {
    let low = take_up(stored_table::take_up(&STEADY), duty::take_up(&two_users()));
    let middle = take_up(low, monitor_of(1, 20));
    let mut shut = EventSet::none();
    shut.insert(13);
    let pile = restriction::take_up(middle, shut);
    assert_eq!(rt; (pile.count(), pile.first()), (81, 0));
    // State 47 is the table in 1, the two users in 6 and the single user in 2.
    assert_eq!(rt; pile.step(47, 1), Some(74), "the table goes to 2");
    assert_eq!(rt; pile.step(47, 10), Some(50), "user 0 of two acts");
    assert_eq!(rt;
        (pile.step(45, 20), pile.step(47, 20)),
        (Some(46), None),
        "the single user"
    );
    assert_eq!(rt;
        (pile.role(13), pile.step(0, 13)),
        (Role::Input, None),
        "shut"
    );
    assert_eq!(rt; reached_count(&pile), 36);
    let chart = Chart::of(&pile);
    assert_eq!(rt; (chart.count(), chart.step(47, 10)), (81, Some(50)));
    assert_eq!(rt; reached_count(&chart), 36);
}
