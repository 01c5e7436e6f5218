// Stored tables: refusals in their order, and what a table means.
use crate::samples::{STEADY, refusal};
use systems::chart::Chart;
use systems::stored_table::fault::TableFault;
use systems::stored_table::{SoundTable, check as check_table, read, take_up};
use systems::system::{Role, System, UnknownRole};

// Where the fields of STEADY lie.
const COUNT: usize = 0;

const FIRST: usize = 2;

const RECORDS: usize = 4;

const ROLES: usize = 6;

const HEADS: usize = 70;

const EVENT_1: usize = 76;

const TARGET_1: usize = 78;

const NEXT_1: usize = 80;

const EVENT_2: usize = 82;

const TARGET_2: usize = 84;

const NEXT_2: usize = 86;

const EVENT_3: usize = 88;

#[test]
fn header_faults_go_by_number(rt: HostRuntime) {
    let mut table = STEADY;
    assert_eq!(rt; refusal(check_table(&table)), (0, 0));
    table[ROLES + 9] = 4;
    assert_eq!(rt;
        refusal(check_table(&table[0..99])),
        (9, 0),
        "length before role"
    );
    table[RECORDS + 1] = 33;
    assert_eq!(rt;
        refusal(check_table(&table)),
        (8, 0),
        "records before length"
    );
    table[FIRST] = 3;
    assert_eq!(rt;
        refusal(check_table(&table)),
        (7, 0),
        "first state before records"
    );
    table[COUNT] = 0;
    assert_eq!(rt;
        refusal(check_table(&table)),
        (6, 0),
        "count before first state"
    );
    assert_eq!(rt;
        refusal(check_table(&table[0..69])),
        (5, 0),
        "shortness before count"
    );
}

#[test]
fn fields_have_two_bytes(rt: HostRuntime) {
    let mut table = STEADY;
    table[COUNT + 1] = 2;
    assert_eq!(rt; refusal(check_table(&table)), (6, 0), "515 states");
    let mut table = STEADY;
    table[EVENT_1 + 1] = 1;
    assert_eq!(rt; refusal(check_table(&table)), (12, 1), "event 256");
    let mut table = STEADY;
    table[TARGET_1 + 1] = 1;
    assert_eq!(rt; refusal(check_table(&table)), (13, 1), "target 256");
}

#[test]
fn lowest_place_counts(rt: HostRuntime) {
    let mut table = STEADY;
    table[HEADS + 2] = 5;
    table[HEADS + 4] = 5;
    table[EVENT_1] = 3;
    assert_eq!(rt;
        refusal(check_table(&table)),
        (11, 1),
        "head of state 1 before later ones and records"
    );
    table[ROLES + 63] = 255;
    table[ROLES + 5] = 4;
    assert_eq!(rt;
        refusal(check_table(&table)),
        (10, 5),
        "role of event 5 before 63 and heads"
    );
}

#[test]
fn records_are_checked_one_by_one(rt: HostRuntime) {
    let mut table = STEADY;
    table[EVENT_3] = 64;
    table[NEXT_2] = 5;
    assert_eq!(rt;
        refusal(check_table(&table)),
        (14, 2),
        "record 2's next before record 3's event"
    );
    table[TARGET_2] = 3;
    assert_eq!(rt; refusal(check_table(&table)), (13, 2), "target before next");
    table[EVENT_2] = 3;
    assert_eq!(rt;
        refusal(check_table(&table)),
        (12, 2),
        "event of role 0 before target"
    );
    table[NEXT_1] = 1;
    assert_eq!(rt;
        refusal(check_table(&table)),
        (14, 1),
        "a record that names itself"
    );
}

#[test]
fn events_rise_strictly_along_a_chain(rt: HostRuntime) {
    let mut table = STEADY;
    table[EVENT_2] = 0;
    assert_eq!(rt; refusal(check_table(&table)), (14, 1));
}

#[test]
fn unused_records_are_checked(rt: HostRuntime) {
    let mut table = STEADY;
    table[HEADS + 2] = 0;
    assert_eq!(rt; refusal(check_table(&table)), (0, 0));
    table[EVENT_3] = 64;
    assert_eq!(rt; refusal(check_table(&table)), (12, 3));
}

#[test]
fn chains_may_share_records(rt: HostRuntime) {
    let mut table = STEADY;
    table[HEADS + 4] = 1;
    let chart = take_up(&table);
    assert_eq!(rt; chart.step(0, 2), Some(1));
    assert_eq!(rt; chart.step(2, 2), Some(1));
    assert_eq!(rt; chart.step(2, 0), Some(0));
}

#[test]
fn chain_gives_the_steps(rt: HostRuntime) {
    let chart = take_up(&STEADY);
    assert_eq!(rt; (chart.count(), chart.first()), (3, 0));
    assert_eq!(rt; chart.role(0), Role::Output);
    assert_eq!(rt; chart.role(64), Role::Absent);
    assert_eq!(rt; (chart.step(0, 0), chart.step(0, 2)), (Some(0), Some(1)));
    assert_eq!(rt; (chart.step(1, 1), chart.step(2, 0)), (Some(2), Some(2)));
    assert_eq!(rt; (chart.step(0, 1), chart.step(3, 0)), (None, None));
    assert_eq!(rt; chart.step(255, 255), None);
}

#[test]
fn a_copied_chart_answers_alike(rt: HostRuntime) {
    let chart = Chart::of(&take_up(&STEADY));
    assert_eq!(rt; (chart.count(), chart.first()), (3, 0));
    assert_eq!(rt; chart.role(2), Role::Input);
    assert_eq!(rt; (chart.step(0, 2), chart.step(1, 1)), (Some(1), Some(2)));
    assert_eq!(rt; (chart.step(1, 2), chart.step(255, 0)), (None, None));
}

#[test]
fn refused_table_is_taken_up_bare(rt: HostRuntime) {
    let chart = take_up(&STEADY[0..99]);
    assert_eq!(rt; (chart.count(), chart.first()), (1, 0));
    assert_eq!(rt; chart.role(0), Role::Absent);
    assert_eq!(rt; chart.step(0, 0), None);
}

#[test]
fn count_may_be_256_and_not_257(rt: HostRuntime) {
    let mut table = [0u8; 584];
    table[COUNT + 1] = 1;
    assert_eq!(rt; refusal(check_table(&table[0..582])), (0, 0));
    assert_eq!(rt; take_up(&table[0..582]).count(), 256);
    table[COUNT] = 1;
    assert_eq!(rt; refusal(check_table(&table)), (6, 0));
}

#[test]
fn reading_gives_the_chart_or_the_first_fault(rt: HostRuntime) {
    let counts = read(&STEADY).map(|chart| (chart.count(), chart.first()));
    assert_eq!(rt; counts, Ok((3, 0)));
    let mut table = STEADY;
    table[ROLES + 9] = 4;
    let counts = read(&table).map(|chart| (chart.count(), chart.first()));
    assert_eq!(rt; counts, Err(TableFault::Role(9)));
}

#[test]
fn sound_tables_give_their_chart(rt: HostRuntime) {
    let count = SoundTable::parse(&STEADY).map(|table| table.chart().count());
    assert_eq!(rt; count, Ok(3));
    let count = SoundTable::parse(&STEADY[0..99]).map(|table| table.chart().count());
    assert_eq!(rt; count, Err(TableFault::Length));
}

#[test]
fn roles_are_numbered_from_0_to_3(rt: HostRuntime) {
    assert_eq!(rt; Role::try_from(0), Ok(Role::Absent));
    assert_eq!(rt; Role::try_from(2), Ok(Role::Output));
    assert_eq!(rt; Role::try_from(3), Ok(Role::Internal));
    assert_eq!(rt; Role::try_from(4), Err(UnknownRole(4)));
}
