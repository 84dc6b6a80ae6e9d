//! Who is listed.
ghost use Rattle.venue_words.specs.Conditions.{IsConfig};

use super::config_of;
use drop_copy::{DropPlan, drop_members};
use std::alloc::{AllocError, Global};
use std::process::Abort;
use std::test::Fail;
use venue_words::Config;

/// A plan of these words.
fn plan_of(alloc: Global, name: &str, members: &[&str]) -> Result<DropPlan, AllocError> {
    let mut list = Vec::new(alloc);
    for member in members {
        list.push(String::from_str(alloc, member)?)?;
    }
    Ok(DropPlan {
        address: String::from_str(alloc, "127.0.0.1:7002")?,
        name: String::from_str(alloc, name)?,
        members: list,
    })
}

/// A name and members, and the numbers of the members where the plan is one.
type PlanCase = (
    &'static str,
    &'static [&'static str],
    Option<&'static [u32]>,
);

const PLANS: &[PlanCase] = &[
    ("DC", &["A"], Some(&[0])),
    ("DC", &["B", "A"], Some(&[0, 1])),
    ("DC", &[], Some(&[])),
    ("DC", &["A", "A"], None),
    ("DC", &["A", "C"], None),
    ("A", &["B"], None),
    ("", &["A"], None),
    ("7C", &["A"], None),
];

fn check(rt: &impl Abort, alloc: Global, config: &Config, case: &PlanCase) -> Result<(), Fail>
    requires { IsConfig config.now }
{
    let (name, members, expected) = case;
    let plan = plan_of(alloc, name, members)?;
    let numbers = drop_members(alloc, &plan, config)?;
    match (&numbers, expected) {
        (Some(numbers), Some(expected)) => {
            assert_eq!(rt; numbers.as_slice(), *expected);
        }
        (None, None) => {}
        _ => return Err(Fail::from("another answer")),
    }
    Ok(())
}

#[test]
fn listed_members_have_their_numbers_in_rising_order(rt: HostRuntime) -> Result<(), Fail> {
    let config = config_of(rt.alloc())?;
    for case in PLANS {
        check(&rt, rt.alloc(), &config, case)?;
    }
    Ok(())
}
