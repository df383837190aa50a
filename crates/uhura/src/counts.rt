//! Sessions and their counts: a question that is asked again settles and pushes nothing, and each other one settles as
//! often as it adds a conflict, or once more.
use std::alloc::{AllocError, Global};
use uhura_session::Session;

/// A drive that may take longer than dinner can wait, asked about; and then a later dinner.
const DRIVE: [&str; 5] = [
    "event home",
    "uncertain drive home arrive 30 50 upper 3",
    "require dinner home arrive - 40 upper 2",
    "propose",
    "bound dinner upper 45",
];

/// What is proposed for the later dinner.
const LATER: &str = "proposal 10\nloosen dinner upper 5\nat home 0\nend\n";

/// An evening with a dinner and a film, asked about as it is planned.
const EVENING: [&str; 38] = [
    "event start",
    "event ready",
    "event leave",
    "event seated",
    "event depart",
    "event popcorn",
    "event film",
    "event credits",
    "event goodnight",
    "uncertain to_indian leave at_indian 25 40 upper 4",
    "uncertain to_thai leave at_thai 15 30 upper 4",
    "uncertain from_indian depart cinema_i 20 35 upper 4",
    "uncertain from_thai depart cinema_t 15 25 upper 4",
    "uncertain back credits at_home 30 45 upper 4",
    "choice restaurant indian 0 thai 10",
    "choice showing early 0 late 15",
    "choice route town 0 ring 4",
    "require go start leave 0 -",
    "require dress start ready 20 40",
    "require door ready leave 0 15",
    "require sit_i at_indian seated 0 - when restaurant indian",
    "require sit_t at_thai seated 0 - when restaurant thai",
    "require dinner_i seated depart 60 90 lower 3 20 when restaurant indian",
    "require dinner_t seated depart 45 80 lower 3 20 when restaurant thai",
    "require arrive_i cinema_i popcorn 0 - when restaurant indian",
    "require arrive_t cinema_t popcorn 0 - when restaurant thai",
    "require queue popcorn film 10 30",
    "require early start film 150 150 when showing early",
    "require late start film 180 180 when showing late",
    "require length film credits 110 110",
    "require keys at_home goodnight 5 -",
    "require home start goodnight - 330 upper 2",
    "require hungry start seated - 100",
    "require park popcorn film 15 - when route town",
    "require wait_i leave seated - 60 upper 1 when restaurant indian",
    "require wait_t leave seated - 60 upper 1 when restaurant thai",
    "require curfew start goodnight - 400",
    "propose",
];

/// Vetoes of what was proposed for the evening, each with the question that follows.
const VETOES: [&str; 8] = [
    "deny no_thai restaurant thai",
    "propose",
    "cap home_cap require home upper 4",
    "propose",
    "deny no_late showing late",
    "propose",
    "withdraw no_thai",
    "propose",
];

/// Gives a line, and says whether the answer is this text.
fn is_answered(session: &mut Session, line: &str, text: &str) -> Result<bool, AllocError> {
    Ok(session.line(line.as_bytes())?.text == text.as_bytes())
}

/// Gives lines, and says whether at each the settles rose by as much as the conflicts that were added, or by one more.
fn settles_as_it_adds(session: &mut Session, lines: &[&str]) -> Result<bool, AllocError> {
    let mut always = true;
    for line in lines {
        let (settles, added) = (session.settles(), session.added());
        let _is_empty = is_answered(session, line, "")?;
        let settles = session.settles().saturating_sub(settles);
        let added = session.added().saturating_sub(added);
        always = always && added <= settles && settles - added <= 1;
    }
    Ok(always)
}

/// Asks about a later dinner twice, and says whether both answers are right and the second one settled and pushed
/// nothing.
fn asks_again(session: &mut Session) -> Result<bool, AllocError> {
    let is_settled = settles_as_it_adds(session, &DRIVE)?;
    let first = is_answered(session, "propose", LATER)?;
    let (settles, pushes) = (session.settles(), session.pushes());
    let second = is_answered(session, "propose", LATER)?;
    let is_same = session.settles() == settles && session.pushes() == pushes;
    Ok(is_settled && first && second && is_same)
}

/// Asks about the evening as it is planned, and after each veto.
fn asks_about_the_evening(session: &mut Session) -> Result<bool, AllocError> {
    let is_planned = settles_as_it_adds(session, &EVENING)? && session.added() > 0;
    Ok(settles_as_it_adds(session, &VETOES)? && is_planned)
}

fn asked_again(alloc: Global) -> Result<bool, AllocError> {
    asks_again(&mut Session::new(alloc)?)
}

fn asked_about_the_evening(alloc: Global) -> Result<bool, AllocError> {
    asks_about_the_evening(&mut Session::new(alloc)?)
}

#[test]
fn a_question_that_is_asked_again_settles_nothing(rt: HostRuntime) -> Result<(), AllocError> {
    assert!(rt; asked_again(rt.alloc())?);
    Ok(())
}

#[test]
fn a_question_settles_as_often_as_it_adds(rt: HostRuntime) -> Result<(), AllocError> {
    assert!(rt; asked_about_the_evening(rt.alloc())?);
    Ok(())
}
