//! The acts of a workload, beside those that `bench/workload_acts.py` works out from the rule in words.
use fluid_gen::{Act, Workload};
use std::alloc::{AllocError, Global};

// The first 200 acts of 8 clients with 20,000 ops, from the number 7.
const SEVEN: &str = "\
begin,join 0,collect 0,noop 0,join 1,collect 1,noop 1,join 2,collect 2,noop 2,join 3,collect 3,noop 3,join 4,\
collect 4,noop 4,join 5,collect 5,noop 5,join 6,collect 6,noop 6,join 7,collect 7,noop 7,increment 6 812,\
increment 1 486,collect 1,delete 3 45,set 0 49 962,set 3 1 936,delete 6 3,collect 6,set 0 43 632,collect 0,\
delete 5 25,set 3 7 972,collect 3,again 5,delete 0 30,collect 0,set 0 46 490,collect 0,set 6 18 74,\
set 0 6 603,increment 5 -895,set 1 33 152,collect 1,delete 1 10,set 0 18 781,collect 0,set 6 35 576,collect 6,\
again 1,increment 2 268,set 5 17 354,collect 5,increment 6 188,set 7 6 485,collect 7,increment 3 863,\
collect 3,increment 6 -806,set 4 5 254,collect 4,delete 5 7,delete 6 0,collect 6,again 4,collect 4,\
set 2 23 210,set 7 45 255,set 3 4 360,collect 3,increment 0 624,delete 1 7,delete 1 45,set 1 39 436,\
increment 2 -950,collect 2,set 3 12 991,collect 3,again 7,collect 7,delete 7 28,collect 7,set 4 6 192,\
set 1 5 11,set 6 36 84,increment 0 326,collect 0,delete 0 17,collect 0,delete 7 20,collect 7,set 5 0 481,\
collect 5,set 7 30 309,collect 7,again 2,collect 2,increment 5 144,set 5 1 813,collect 5,set 7 12 733,\
collect 7,delete 4 11,set 4 34 442,collect 4,set 6 20 560,set 6 27 590,set 4 12 339,set 0 36 84,again 6,\
collect 6,delete 3 7,collect 3,set 3 34 265,collect 3,set 3 18 303,collect 3,increment 2 957,collect 2,\
increment 5 -676,collect 5,delete 6 36,increment 4 -86,collect 4,delete 0 22,collect 0,set 0 41 465,again 3,\
collect 3,delete 0 7,delete 1 14,set 0 18 679,collect 0,increment 7 -341,set 3 3 793,collect 3,delete 2 43,\
collect 2,set 1 4 18,increment 7 37,collect 7,increment 1 -15,collect 1,again 2,increment 2 -575,set 1 1 102,\
collect 1,set 6 19 163,increment 2 171,increment 6 836,collect 6,set 7 34 428,delete 3 26,collect 3,\
set 4 46 464,collect 4,delete 2 28,collect 2,again 7,increment 0 538,set 0 1 348,increment 5 10,collect 5,\
set 6 2 250,set 4 5 821,collect 4,delete 7 33,collect 7,increment 4 876,set 4 45 280,collect 4,gap 7,\
collect 7,again 6,collect 6,set 0 5 833,delete 2 42,collect 2,delete 4 45,delete 6 29,delete 0 15,collect 0,\
set 0 21 133,increment 7 -394,delete 2 34,set 4 27 218,again 6,increment 1 271,collect 1,delete 2 49,\
collect 2,set 3 24 638,collect 3,increment 7 -984,delete 4 3,set 3 18 755";

// The first 200 acts of 3 clients with 150 ops, from the number 2^64 - 1.
const LARGEST: &str = "\
begin,join 0,collect 0,noop 0,join 1,collect 1,noop 1,join 2,collect 2,noop 2,increment 1 228,collect 1,\
increment 0 -637,set 1 33 162,collect 1,delete 1 30,delete 1 2,set 2 15 557,set 2 0 315,collect 2,\
set 2 41 484,set 0 12 967,collect 0,again 2,collect 2,set 0 31 658,delete 2 22,collect 2,increment 2 -77,\
set 0 41 887,increment 2 34,delete 1 13,collect 1,set 2 5 400,set 2 11 415,increment 0 -462,collect 0,again 1,\
collect 1,set 0 33 498,collect 0,set 0 14 445,collect 0,increment 2 -519,collect 2,set 0 48 526,collect 0,\
set 0 17 929,delete 0 15,set 0 40 583,collect 0,increment 0 593,collect 0,set 1 12 613,again 0,collect 0,\
delete 0 5,collect 0,set 1 34 749,collect 1,set 0 13 183,collect 0,delete 2 33,set 1 0 996,collect 1,\
delete 2 27,delete 2 4,collect 2,set 0 30 629,increment 0 -406,again 0,set 2 1 744,delete 1 18,collect 1,\
set 1 2 657,delete 0 26,set 1 44 530,set 1 43 268,set 1 49 995,collect 1,delete 0 8,delete 0 5,collect 0,\
again 1,set 1 4 570,collect 1,increment 2 316,collect 2,set 2 39 800,collect 2,delete 0 4,set 1 49 790,\
increment 1 477,set 0 35 747,collect 0,set 2 21 163,set 0 40 186,collect 0,again 1,collect 1,delete 0 17,\
delete 0 29,set 1 5 104,delete 1 5,collect 1,delete 2 46,set 1 7 505,collect 1,set 1 15 788,increment 0 357,\
collect 0,set 2 37 82,again 2,increment 1 -649,set 0 18 395,set 1 23 935,increment 0 -314,collect 0,\
increment 0 225,set 1 17 379,set 1 5 904,set 0 45 706,set 0 41 426,collect 0,again 0,set 1 48 387,delete 1 40,\
collect 1,set 2 23 891,increment 2 -972,collect 2,set 1 16 710,collect 1,set 1 48 853,set 0 48 674,collect 0,\
set 2 33 928,delete 0 2,again 1,delete 2 25,collect 2,delete 0 7,collect 0,delete 1 16,collect 1,set 0 27 428,\
collect 0,set 2 7 821,set 2 32 16,increment 2 -465,collect 2,set 2 26 457,gap 2,again 0,delete 0 12,collect 0,\
set 2 25 991,increment 2 -882,set 1 28 102,collect 1,increment 2 700,set 0 25 480,set 0 36 47,collect 0,\
set 0 4 859,collect 0,set 1 11 379,collect 1,again 0,set 1 16 173,delete 1 41,collect 1,delete 1 14,collect 1,\
delete 1 29,delete 0 15,collect 0,set 1 31 865,collect 1,delete 2 45,collect 2,set 1 1 357,collect 1,\
delete 2 13,collect 2,again 1,collect 1,set 1 18 24,set 1 19 872,delete 2 27,collect 2,set 2 24 724,\
set 0 2 527,set 1 5 944,set 2 21 246,collect 2,set 0 18 314,increment 0 -770,again 2,collect 2";

// The last 16 acts, behind 1495 others, of 2 clients with 1,000 ops, from the number 0.
const LAST: &str = "\
collect 0,set 0 3 417,set 1 2 47,set 0 17 847,set 1 45 164,delete 1 32,set 1 47 267,collect 1,delete 1 9,\
collect 1,gap 1,collect 1,again 1,collect 1,round,finish";

// Puts the words for an act behind a text.
fn push_act(alloc: Global, text: &mut String, act: Act) -> Result<(), AllocError> {
    match act {
        Act::Begin => text.push_str("begin"),
        Act::Join(client) => push_numbers(alloc, text, "join", &[i64::from(client)]),
        Act::Collect(client) => push_numbers(alloc, text, "collect", &[i64::from(client)]),
        Act::Noop(client) => push_numbers(alloc, text, "noop", &[i64::from(client)]),
        Act::Again(client) => push_numbers(alloc, text, "again", &[i64::from(client)]),
        Act::Gap(client) => push_numbers(alloc, text, "gap", &[i64::from(client)]),
        Act::Set { client, key, value } => push_numbers(
            alloc,
            text,
            "set",
            &[i64::from(client), i64::from(key), i64::from(value)],
        ),
        Act::Delete { client, key } => {
            push_numbers(alloc, text, "delete", &[i64::from(client), i64::from(key)])
        }
        Act::Increment { client, amount } => {
            push_numbers(alloc, text, "increment", &[i64::from(client), amount])
        }
        Act::Round => text.push_str("round"),
        Act::Finish => text.push_str("finish"),
    }
}

fn push_numbers(
    alloc: Global,
    text: &mut String,
    word: &str,
    numbers: &[i64],
) -> Result<(), AllocError> {
    text.push_str(word)?;
    for number in numbers {
        let part = format!(in alloc; " {number}")?;
        text.push_str(part.as_str())?;
    }
    Ok(())
}

// So many acts of a workload, behind so many others, with a comma between two.
fn told(
    alloc: Global,
    workload: &mut Workload,
    behind: u32,
    count: u32,
) -> Result<String, AllocError> {
    let mut text = String::new(alloc);
    for place in 0..behind.saturating_add(count) {
        if let Some(act) = workload.next()
            && place >= behind
        {
            if place > behind {
                text.push(',')?;
            }
            push_act(alloc, &mut text, act)?;
        }
    }
    Ok(text)
}

#[test]
fn the_acts_are_those_of_the_rule(rt: HostRuntime) -> Result<(), AllocError> {
    let alloc = rt.alloc();
    let first = told(alloc, &mut Workload::new(7, 8, 20_000), 0, 200)?;
    assert!(rt; first.as_str() == SEVEN);
    let second = told(alloc, &mut Workload::new(u64::MAX, 3, 150), 0, 200)?;
    assert!(rt; second.as_str() == LARGEST);
    let mut workload = Workload::new(0, 2, 1_000);
    let last = told(alloc, &mut workload, 1495, 16)?;
    assert!(rt; last.as_str() == LAST);
    assert!(rt; workload.next().is_none());
    Ok(())
}
