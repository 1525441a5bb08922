//! The worked row: three records at the start, two more, and two clients.
use ide_board::Board;
use ide_wire::Refused;
use std::marker::Brand;
use std::test::Fail;

#[test]
fn two_clients_read_what_is_stored(rt: HostRuntime) -> Result<(), Fail> {
    let (board, mut table, mut writer, mut clients) = Board::<u8>::new::<Brand>(rt.alloc(), 3, 2)?;
    let (Some(mut second), Some(mut first)) = (clients.pop(), clients.pop()) else {
        return Ok(());
    };
    assert!(rt; first.number() == 0 && second.number() == 1);
    assert!(rt;
        board.acked(&mut first) == 3 && board.acked(&mut second) == 3,
        "at the start"
    );
    board.seal(&mut table, &7, None);
    board.seal(&mut table, &8, None);
    board.hand_over(&mut table, &mut writer);
    assert!(rt; board.acked(&mut first) == 3, "two are handed over");
    board.publish(&mut writer);
    assert!(rt; board.acked(&mut first) == 4, "one is stored");
    board.publish(&mut writer);
    assert!(rt; board.acked(&mut first) == 5, "both are stored");
    assert!(rt; second.seen() == 3, "the other client has not looked");
    board.learn(&mut second, &mut first);
    assert!(rt; second.seen() == 5, "it has learnt");
    assert!(rt; board.acked(&mut second) == 5, "and then looks");
    Ok(())
}

// There are up to 64 clients, numbered from 0.
#[test]
fn clients_have_a_limit(rt: HostRuntime) -> Result<(), Fail> {
    let (_board, _table, _writer, clients) = Board::<u8>::new::<Brand>(rt.alloc(), 0, 64)?;
    assert!(rt; clients.len() == 64 && clients[63].number() == 63 && clients[63].seen() == 0);
    match Board::<u8>::new::<Brand>(rt.alloc(), 0, 65) {
        Ok(_) => assert!(rt; false, "65 clients"),
        Err(refused) => assert!(rt; refused == Refused::Limit),
    }
    Ok(())
}

#[test]
fn stop_is_raised(rt: HostRuntime) -> Result<(), Fail> {
    let (board, _table, _writer, _clients) = Board::<u8>::new::<Brand>(rt.alloc(), 0, 0)?;
    assert!(rt; !board.stopped());
    board.raise_stop();
    assert!(rt; board.stopped());
    Ok(())
}
