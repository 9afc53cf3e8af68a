// Which calls empty the translation buffer, by their operation and their reply.
use call_table::Reply;
use kernel_call::Outcome;
use kernel_clone::{BAD_CALL, Work};

// An operation that zeroed no frame and wrote no entry.
fn no_work(op: u8) -> Work {
    Work {
        op,
        zeroed: None,
        count: 0,
        entries: [0; 64],
    }
}

fn empties(op: u8, reply: Option<Reply>) -> bool {
    Outcome {
        reply,
        work: no_work(op),
    }
    .empties_buffer()
}

#[test]
fn unmap_delete_and_revoke_empty_the_buffer_where_they_are_done(rt: HostRuntime) {
    let done = Reply { code: 0, value: 0 };
    let three_revoked = Reply { code: 0, value: 3 };
    let empty_slot = Reply { code: 3, value: 0 };
    assert!(rt; !empties(0, None), "EXIT");
    for op in 1..=4 {
        assert!(rt; !empties(op, Some(done)), "operation {}", op);
    }
    assert!(rt; empties(5, Some(done)), "UNMAP");
    assert!(rt; !empties(6, Some(done)), "COPY");
    assert!(rt; empties(7, Some(done)), "DELETE");
    assert!(rt; empties(8, Some(three_revoked)), "REVOKE");
    for op in 5..=8 {
        assert!(rt; !empties(op, Some(empty_slot)), "refused, operation {}", op);
    }
    let bad_call = Reply { code: 1, value: 0 };
    assert!(rt; !empties(BAD_CALL, Some(bad_call)), "a bad call");
}
