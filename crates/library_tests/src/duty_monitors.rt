// Duty monitors: refusals in their order, and who can act after whom.
use crate::samples::{refusal, two_users};
use components::duty::{check as check_duty, take_up};
use systems::system::{Role, System};

#[test]
fn duty_faults_go_by_number(rt: HostRuntime) {
    let mut duty = two_users();
    assert_eq!(rt; refusal(check_duty(&duty)), (0, 0));
    duty[64] = 5;
    assert_eq!(rt; refusal(check_duty(&duty)), (17, 63), "user 2 of 2");
    duty[1] = 255;
    assert_eq!(rt; refusal(check_duty(&duty)), (17, 0), "the lowest entry");
    duty[0] = 0;
    assert_eq!(rt; refusal(check_duty(&duty)), (16, 0), "users before entries");
    duty[0] = 6;
    assert_eq!(rt; refusal(check_duty(&duty)), (16, 0), "too many users");
    assert_eq!(rt;
        refusal(check_duty(&duty[0..64])),
        (15, 0),
        "length before users"
    );
    assert_eq!(rt; refusal(check_duty(&[])), (15, 0));
}

#[test]
fn user_0_has_weight_1(rt: HostRuntime) {
    let monitor = take_up(&two_users());
    assert_eq!(rt; (monitor.count(), monitor.first()), (9, 0));
    assert_eq!(rt;
        (monitor.step(0, 10), monitor.step(0, 11)),
        (Some(1), Some(2))
    );
    assert_eq!(rt;
        (monitor.step(0, 12), monitor.step(0, 13)),
        (Some(3), Some(6))
    );
    assert_eq!(rt;
        (monitor.step(2, 12), monitor.step(6, 10)),
        (Some(5), Some(7))
    );
}

#[test]
fn nobody_acts_in_both_activities(rt: HostRuntime) {
    let monitor = take_up(&two_users());
    assert_eq!(rt;
        (monitor.step(1, 10), monitor.step(1, 11)),
        (Some(1), None),
        "user 0 in 0"
    );
    assert_eq!(rt;
        (monitor.step(5, 10), monitor.step(5, 11)),
        (None, Some(5)),
        "user 0 in 1"
    );
    assert_eq!(rt;
        (monitor.step(5, 12), monitor.step(5, 13)),
        (Some(5), None),
        "user 1 in 0"
    );
}

#[test]
fn acts_are_inputs(rt: HostRuntime) {
    let monitor = take_up(&two_users());
    assert_eq!(rt;
        (monitor.role(10), monitor.role(13)),
        (Role::Input, Role::Input)
    );
    assert_eq!(rt;
        (monitor.role(9), monitor.role(74)),
        (Role::Absent, Role::Absent)
    );
    assert_eq!(rt; (monitor.step(0, 9), monitor.step(0, 74)), (None, None));
    assert_eq!(rt;
        (monitor.step(9, 10), monitor.step(255, 10)),
        (None, None),
        "no such state"
    );
}

#[test]
fn refused_duty_is_taken_up_bare(rt: HostRuntime) {
    let monitor = take_up(&two_users()[0..64]);
    assert_eq!(rt; (monitor.count(), monitor.first()), (1, 0));
    assert_eq!(rt;
        (monitor.role(10), monitor.step(0, 10)),
        (Role::Absent, None)
    );
}
