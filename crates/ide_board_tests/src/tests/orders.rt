//! A client that orders records, as what lies under the table's lock does for it.
ghost use Rattle.std.specs.Prelude.{◌≡◌, ◌<◌, ◌≤◌, Some, [], ◌∷◌, length};
ghost use Rattle.ide_board.specs.Records.{with_own, with_sealed};

use ide_board::{Board, ClientSeat, TableSeat};
use std::marker::Brand;
use std::test::Fail;

/// Seals a record for the client and notes it: it is the client's own, at its number.
fn order<R: Drop>(board: &Board<R>, table: &mut TableSeat<R>, client: &mut ClientSeat<R>, item: &R)
    requires boards { (table.old.board ≡ board.now) × (client.old.board ≡ board.now) }
    requires room { length table.old.sealed < 4294967295 }
    requires handed { table.old.handed ≤ length table.old.sealed }
    ensures table { table.new ≡ with_sealed table.old (item.now, Some client.old.number) }
    ensures client { client.new ≡ with_own client.old ((length table.old.sealed, item.now) ∷ []) }
{
    board.compare(table, client);
    board.seal(table, item, Some(client.number()));
    board.note(table, client);
}

// Orders of two clients, of which the second looks, and what it has seen is compared with what is stored.
#[test]
fn own_records_are_stored(rt: HostRuntime) -> Result<(), Fail> {
    let (board, mut table, mut writer, mut clients) = Board::<u8>::new::<Brand>(rt.alloc(), 0, 2)?;
    let (Some(mut second), Some(mut first)) = (clients.pop(), clients.pop()) else {
        return Ok(());
    };
    order(&board, &mut table, &mut second, &7);
    order(&board, &mut table, &mut first, &8);
    board.hand_over(&mut table, &mut writer);
    order(&board, &mut table, &mut second, &9);
    board.publish(&mut writer);
    assert!(rt; board.acked(&mut second) == 1);
    board.confirm(&mut writer, &mut second);
    board.publish(&mut writer);
    board.hand_over(&mut table, &mut writer);
    board.publish(&mut writer);
    assert!(rt; board.acked(&mut second) == 3 && second.seen() == 3);
    board.confirm(&mut writer, &mut second);
    board.compare(&mut table, &mut first);
    assert!(rt; first.seen() == 0 && board.acked(&mut first) == 3);
    Ok(())
}
