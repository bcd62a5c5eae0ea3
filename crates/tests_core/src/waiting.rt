//! How workers see that their round is over.
use std::test::Fail;
use vi_run::{Round, Waiting};

#[test]
fn one_worker_ends_the_round_of_another(rt: HostRuntime) -> Result<(), Fail> {
    let round = Round::new(false);
    let mut waiting = Waiting::default();
    waiting.look(&round);
    assert!(rt; !waiting.is_over);
    round.end();
    waiting.look(&round);
    assert!(rt; waiting.is_over);
    Ok(())
}

#[test]
fn a_round_lasts_as_long_as_somebody_moves(rt: HostRuntime) -> Result<(), Fail> {
    let round = Round::new(false);
    let mut waiting = Waiting::default();
    for look in 0..1000u32 {
        round.moved(1);
        waiting.look(&round);
        assert!(rt; !waiting.is_over, "{look}");
    }
    for _look in 0..1000u32 {
        waiting.look(&round);
    }
    assert!(rt; waiting.is_over);
    Ok(())
}

#[test]
fn a_lone_worker_ends_its_round_where_nothing_moves(rt: HostRuntime) -> Result<(), Fail> {
    let round = Round::new(true);
    let mut waiting = Waiting::default();
    for look in 0..1000u32 {
        round.moved(1);
        waiting.look(&round);
        assert!(rt; !waiting.is_over, "{look}");
    }
    for _look in 0..1000u32 {
        waiting.look(&round);
    }
    assert!(rt; waiting.is_over);
    Ok(())
}

#[test]
fn sharing_pays_where_actors_move_often_in_a_row(rt: HostRuntime) -> Result<(), Fail> {
    let round = Round::new(false);
    assert!(rt; !round.pays());
    round.moved(7);
    assert!(rt; !round.pays());
    round.moved(9);
    assert!(rt; round.pays());
    round.moved(1);
    assert!(rt; !round.pays());
    Ok(())
}
