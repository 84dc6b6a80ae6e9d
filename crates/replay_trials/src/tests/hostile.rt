//! Bytes that a hostile peer may send: what a logged-on member is answered.
use super::check_played;
use std::alloc::Global;
use std::process::Abort;
use std::test::Fail;

const LOGGED_ON: &str = "PEGV 1
MEMBER A
MEMBER B
MARKET N
SYMBOL X 100
BEGIN 20240102-14:30:00.000
M A 35=A|49=A|56=PEGV|34=1|52=20240102-14:30:00|98=0|108=30|1137=9|
";

const LOGON: &str =
    "A 8=FIXT.1.1|9=67|35=A|49=PEGV|56=A|34=1|52=20240102-14:30:00.000|98=0|108=30|1137=9|10=234|
";

/// Lines behind a Logon, and what is answered.
#[derive(Clone, Copy, Debug)]
struct Attack {
    name: &'static str,
    lines: &'static str,
    answers: &'static str,
}

const ATTACKS: &[Attack] = &[
    Attack {
        name: "no number, and a length with leading zeros",
        lines: "B A 8=FIXT.1.1|9=00005|35=0|10=177|
",
        answers: "A 8=FIXT.1.1|9=61|35=5|49=PEGV|56=A|34=2|52=20240102-14:30:00.000|58=NO NUMBER|10=174|
",
    },
    Attack {
        name: "a length of nothing",
        lines: "B A 8=FIXT.1.1|9=0|10=022|
",
        answers: "",
    },
    Attack {
        name: "a length past the limit",
        lines: "B A 8=FIXT.1.1|9=99999|
",
        answers: "A 8=FIXT.1.1|9=60|35=5|49=PEGV|56=A|34=2|52=20240102-14:30:00.000|58=TOO LONG|10=105|
",
    },
    Attack {
        name: "a garbled frame holds a whole one",
        lines: "B A 8=FIXT.1.1|9=72|35=0|8=FIXT.1.1|9=44|35=0|49=A|56=PEGV|34=2|52=20240102-14:30:00|10=187|10=032|
B A 8=FIXT.1.1|9=44|35=0|49=A|56=PEGV|34=3|52=20240102-14:30:00|10=188|
",
        answers: "",
    },
    Attack {
        name: "data that holds a separator",
        lines: "B A 8=FIXT.1.1|9=58|35=0|49=A|56=PEGV|34=2|52=20240102-14:30:00|95=5|96=ab|cd|10=217|
B A 8=FIXT.1.1|9=44|35=0|49=A|56=PEGV|34=3|52=20240102-14:30:00|10=188|
",
        answers: "",
    },
    Attack {
        name: "data shorter than its length",
        lines: "B A 8=FIXT.1.1|9=55|35=0|49=A|56=PEGV|34=2|52=20240102-14:30:00|95=9|96=ab|10=018|
B A 8=FIXT.1.1|9=44|35=0|49=A|56=PEGV|34=2|52=20240102-14:30:00|10=187|
",
        answers: "",
    },
    Attack {
        name: "a number that stands twice",
        lines: "B A 8=FIXT.1.1|9=49|35=0|49=A|56=PEGV|34=2|34=3|52=20240102-14:30:00|10=152|
",
        answers: "A 8=FIXT.1.1|9=73|35=3|49=PEGV|56=A|34=2|52=20240102-14:30:00.000|45=2|371=34|372=0|373=13|10=224|
",
    },
    Attack {
        name: "a number of zero",
        lines: "B A 8=FIXT.1.1|9=44|35=0|49=A|56=PEGV|34=0|52=20240102-14:30:00|10=185|
",
        answers: "A 8=FIXT.1.1|9=61|35=5|49=PEGV|56=A|34=2|52=20240102-14:30:00.000|58=NO NUMBER|10=174|
",
    },
    Attack {
        name: "another member's name",
        lines: "B A 8=FIXT.1.1|9=44|35=0|49=B|56=PEGV|34=2|52=20240102-14:30:00|10=188|
",
        answers: "A 8=FIXT.1.1|9=72|35=3|49=PEGV|56=A|34=2|52=20240102-14:30:00.000|45=2|371=49|372=0|373=9|10=186|
A 8=FIXT.1.1|9=62|35=5|49=PEGV|56=A|34=3|52=20240102-14:30:00.000|58=WRONG NAME|10=248|
",
    },
    Attack {
        name: "a reset that goes back",
        lines: "B A 8=FIXT.1.1|9=49|35=4|49=A|56=PEGV|34=2|52=20240102-14:30:00|36=1|10=156|
",
        answers: "A 8=FIXT.1.1|9=72|35=3|49=PEGV|56=A|34=2|52=20240102-14:30:00.000|45=2|371=36|372=4|373=5|10=182|
",
    },
    Attack {
        name: "a resend of what was not sent",
        lines: "B A 8=FIXT.1.1|9=53|35=2|49=A|56=PEGV|34=2|52=20240102-14:30:00|7=5|16=0|10=060|
",
        answers: "A 8=FIXT.1.1|9=71|35=3|49=PEGV|56=A|34=2|52=20240102-14:30:00.000|45=2|371=7|372=2|373=5|10=129|
",
    },
    Attack {
        name: "a quantity with an exponent",
        lines: "B A 8=FIXT.1.1|9=100|35=D|49=A|56=PEGV|34=2|52=20240102-14:30:00|11=a1|55=X|54=1|38=1e5|40=P|1094=2|60=20240102-14:30:00|10=158|
",
        answers: "A 8=FIXT.1.1|9=72|35=3|49=PEGV|56=A|34=2|52=20240102-14:30:00.000|45=2|371=38|372=D|373=6|10=201|
",
    },
    Attack {
        name: "a quantity of nineteen digits",
        lines: "B A 8=FIXT.1.1|9=116|35=D|49=A|56=PEGV|34=2|52=20240102-14:30:00|11=a1|55=X|54=1|38=9999999999999999999|40=P|1094=2|60=20240102-14:30:00|10=021|
",
        answers: "A 8=FIXT.1.1|9=72|35=3|49=PEGV|56=A|34=2|52=20240102-14:30:00.000|45=2|371=38|372=D|373=6|10=201|
",
    },
];

fn check(rt: &impl Abort, alloc: Global, attack: &Attack) -> Result<(), Fail> {
    let script = format!(in alloc; "{LOGGED_ON}{}", attack.lines)?;
    let transcript = format!(in alloc; "{LOGON}{}", attack.answers)?;
    check_played(
        rt,
        alloc,
        attack.name,
        script.as_str(),
        transcript.as_str(),
        "",
        0,
    )
}

#[test]
fn a_hostile_peer_is_answered_as_the_profile_says(rt: HostRuntime) -> Result<(), Fail> {
    for attack in ATTACKS {
        check(&rt, rt.alloc(), attack)?;
    }
    Ok(())
}
