// Sets, classes of events and reached states.
use crate::samples::STEADY;
use systems::chart::Chart;
use systems::stored_table::take_up;
use unwinding::class::{Class, UnknownLetter};
use unwinding::event_set::EventSet;
use unwinding::reach::{closure, reached, reached_count};
use unwinding::state_set::StateSet;

#[test]
fn state_sets_hold_what_was_inserted(rt: HostRuntime) {
    let mut set = StateSet::empty();
    set.insert(7);
    set.insert(200);
    set.insert(255);
    assert!(rt; set.contains(200) && !set.contains(201));
    assert_eq!(rt; set.len(), 3);
    assert_eq!(rt; set.lowest_outside(&StateSet::empty()), Some(7));
    assert_eq!(rt; set.lowest_outside(&set), None);
}

#[test]
fn event_sets_hold_the_events_below_64(rt: HostRuntime) {
    let mut set = EventSet::none();
    set.insert(63);
    set.insert(64);
    assert!(rt; set.contains(63) && !set.contains(64) && !set.contains(0));
    assert!(rt; EventSet::all().contains(0) && !EventSet::all().contains(64));
}

#[test]
fn event_sets_count_and_compare(rt: HostRuntime) {
    let mut set = EventSet::none();
    set.insert(63);
    set.insert(64);
    set.insert(255);
    assert_eq!(rt; set.len(), 1);
    assert_eq!(rt; EventSet::none().len(), 0);
    assert_eq!(rt; EventSet::all().len(), 64);
    assert_eq!(rt; set.lowest_outside(&EventSet::none()), Some(63));
    assert_eq!(rt; EventSet::all().lowest_outside(&set), Some(0));
    assert_eq!(rt; set.lowest_outside(&EventSet::all()), None);
}

#[test]
fn state_sets_hold_each_words_first_and_last(rt: HostRuntime) {
    let mut set = StateSet::empty();
    set.insert(64);
    set.insert(63);
    assert!(rt; set.contains(63) && set.contains(64) && !set.contains(255));
    let smaller = set;
    set.insert(255);
    assert!(rt; set.contains(255) && !set.contains(191) && !set.contains(0));
    assert_eq!(rt; set.len(), 3);
    assert_eq!(rt; set.lowest_outside(&StateSet::empty()), Some(63));
    assert_eq!(rt; set.lowest_outside(&smaller), Some(255));
    set.insert(255);
    assert_eq!(rt; set.len(), 3);
}

#[test]
fn sets_with_the_same_numbers_are_equal(rt: HostRuntime) {
    let mut one = StateSet::empty();
    one.insert(200);
    let mut other = StateSet::empty();
    assert!(rt; one != other);
    other.insert(200);
    assert!(rt; one == other && EventSet::none() != EventSet::all());
}

#[test]
fn letters_name_classes(rt: HostRuntime) {
    assert_eq!(rt; Class::try_from(b'V'), Ok(Class::Visible));
    assert_eq!(rt; Class::try_from(b'N'), Ok(Class::Neutral));
    assert_eq!(rt; Class::try_from(b'C'), Ok(Class::Confidential));
    assert_eq!(rt; Class::try_from(b'c'), Err(UnknownLetter(b'c')));
}

#[test]
fn bare_system_reaches_its_one_state(rt: HostRuntime) {
    let system = Chart::bare();
    assert!(rt; reached(&system).contains(0) && !reached(&system).contains(1));
    assert_eq!(rt; reached_count(&system), 1);
    assert_eq!(rt;
        closure(&system, EventSet::all(), &StateSet::empty()).len(),
        0
    );
}

#[test]
fn closure_follows_allowed_events_only(rt: HostRuntime) {
    let system = take_up(&STEADY);
    let mut start = StateSet::empty();
    start.insert(0);
    let mut events = EventSet::none();
    events.insert(2);
    let found = closure(&system, events, &start);
    assert!(rt; found.contains(0) && found.contains(1) && !found.contains(2));
    events.insert(1);
    assert_eq!(rt; closure(&system, events, &start).len(), 3);
    assert_eq!(rt; closure(&system, EventSet::none(), &start).len(), 1);
}
