//! Laws of the report over its definitions, each the contract of a function
//! that does nothing: a caller that calls it may rely on the law.
ghost use Rattle.std.specs.Prelude.{◌≡◌, ℕ, List, [], ◌∷◌, Some, None, codes, pos, negsuc};
ghost use Rattle.rv_core.specs.Registers.{zeros, with_register};
ghost use Rattle.call_table.specs.declared.DomainStatus.TheVariants.{Running};
ghost use Rattle.thread_set.specs.declared.ThreadState.TheVariants.{Never, Ready, Waiting, Ended};
ghost use Rattle.guards.specs.declared.Guard.TheVariants.{Flush};
ghost use Rattle.tp_report.specs.Report.{switch_line, end_text, usage_text, refusal_text, too_long_text};
ghost use Rattle.kernel_clone.specs.Permissions.{every_call};
ghost use Rattle.pad_bound.specs.Example.{small};
ghost use Rattle.tp_report.specs.Report.{bound_text, bound_2_text, accepted_text, unprotected_text};
ghost use Rattle.tp_report.specs.Texts.{thread_text, threads_text};
ghost use Rattle.tp_report.specs.Demo.{demo_head, demo_domain};
ghost use Rattle.tp_report.specs.Laws.{ReportLaw, LinesLaw};

/// After every order of the harts' events after which none is in a slot, the report's
/// sections are those of each domain alone, with what came to it in boxes.
pub fn isolation()
    ensures reported { ReportLaw }
{}

/// No switch line says more than its pad, whatever the order.
pub fn pads()
    ensures lines { LinesLaw }
{}

/// Texts as written by hand, of the least numbers and of the greatest, and of
/// threads in each state; whole sections are in the runs of the program.
pub fn texts()
    ensures least { switch_line 0 0 6150 0 ≡ codes "switch 0 used 0 pad 6150 count 0\n" }
    ensures greatest { switch_line 1 18446744073709551615 5 3
        ≡ codes "switch 1 used 18446744073709551615 pad 5 count 3\n" }
    ensures end { end_text ≡ codes "end\n" }
    ensures usage { usage_text ≡ codes "usage: tp check|bound|run|alone|gen|demo\n" }
    ensures refusal { refusal_text
        (record { rule = 4; at = pos 0; found = negsuc 9223372036854775807; wanted = pos 64 })
        ≡ codes "refused K4 at 0 found -9223372036854775808 wanted 64\n" }
    ensures bound { bound_text (record {
      instruction = 306;
      operation = 4277;
      leave = 383;
      prefetch = 472;
      flush = 340;
      enter = 373;
      total = 6150;
    })
        ≡ codes "instruction 306\noperation 4277\nleave 383\nprefetch 472\nflush 340\nenter 373\nbound 6150\n" }
    ensures bound_2 { bound_2_text small
        (record { domain = 1; length = 9; pad = 2374; hart = 0 }
        ∷ record { domain = 0; length = 9; pad = 6150; hart = 0 } ∷ []) (every_call ∷ 3 ∷ [])
        ≡ codes "instruction 306\nleave 383\nprefetch 472\nflush 340\nenter 373\nentry 0 operation 501 bound 2374\nentry 1 operation 4277 bound 6150\n" }
    ensures accepted { accepted_text ≡ codes "accepted\n" }
    ensures too_long { too_long_text ≡ codes "too long\n" }
    ensures unprotected { unprotected_text Flush ≡ codes "unprotected flush\n" }
    ensures waiting { thread_text (1, record { state = Waiting 12; pc = 4294967292; regs = zeros })
        ≡ codes "\nthread 1 waiting 12 pc fffffffc" }
    ensures second { thread_text (3, record { state = Ended; pc = 65536; regs = with_register zeros 10 2 })
        ≡ codes "\nthread 3 ended pc 00010000 x10=00000002" }
    ensures never { (t pc : ℕ) (regs : List ℕ)
        → thread_text (t, record { state = Never; pc = pc; regs = regs }) ≡ [] }
    ensures ascending { threads_text
        (record { state = Ready; pc = 65540; regs = with_register zeros 31 4294967295 }
        ∷ record { state = Never; pc = 0; regs = zeros }
        ∷ record { state = Waiting 0; pc = 65544; regs = zeros } ∷ [])
        ≡ codes "\nthread 0 ready pc 00010004 x31=ffffffff\nthread 2 waiting 0 pc 00010008" }
    ensures demo_head { demo_head 4294967295 ≡ codes "demo 4294967295 slots 64\n" }
    ensures demo_domain { demo_domain 2 (record {
      status = Running;
      retired = 34;
      threads = [];
      readings = record { count = 1; last = Some 9; first = 9 ∷ [] };
      replies = record { count = 300; last = None; first = [] };
      printed = 65 ∷ [];
      pool = 7 ∷ [];
      frames = (4294967295 ∷ 18 ∷ []) ∷ [];
    })
        ≡ codes "domain 2 retired 34 readings 1 replies 300 mem 00000011\n" }
{}
