// Whole texts of seeds, one for each policy: worked by hand from the generator's rules, with each
// instruction's word, the low byte first, beside it.

/// A seed, its text, in which `@0` and `@1` stand for the bytes of the two programs, and these.
pub type Made = (u64, &'static str, [&'static str; 2]);

pub const MADE: [Made; 3] = [
    (9, SEED_9, [FIRST_OF_9, SECOND_OF_9]),
    (13, SEED_13, [FIRST_OF_13, SECOND_OF_13]),
    (8, SEED_8, [FIRST_OF_8, SECOND_OF_8]),
];

const SEED_9: &str = r#"# Generated from seed 9, by: ./tp gen --seed 9

# ---- the machine

frames = 128
shared = 512
line = 64
l1i = { sets = 16, ways = 2, policy = "lru" }
l1d = { sets = 16, ways = 2, policy = "lru" }
l2 = { sets = 512, ways = 4, policy = "lru" }
tlb = { sets = 4, ways = 2, policy = "lru" }
predictor = 16
costs = { base = 1, l1 = 1, l2 = 8, mem = 40, wb = 10, tlb = 1, mispredict = 3, trap = 10, flush = 20 }

# ---- domain 0

[[domain]]
name = "g0"
colours = [1]
entry = 0x10000
caps = ["irq 0"]
lines = [0]
moments = [[16324, 0], [22271, 0], [52763, 0], [72181, 0], [80238, 0], [103540, 0], [125925, 0], [150054, 0]]
segment = [
    { page = 16, pages = 1, rights = "rx", hex = "@0" },
    { page = 32, pages = 1, rights = "rw", hex = "" },
]

# ---- domain 1

[[domain]]
name = "g1"
colours = [2]
entry = 0x10000
caps = ["irq 1"]
lines = [1]
moments = [[12572, 1], [23040, 1], [40550, 1], [73023, 1], [94438, 1], [104591, 1], [128002, 1], [141220, 1]]
segment = [
    { page = 16, pages = 1, rights = "rx", hex = "@1" },
    { page = 32, pages = 1, rights = "rw", hex = "" },
]

# ---- the schedule

[[schedule]]
domain = 0
length = 5700
pad = 6150

[[schedule]]
domain = 1
length = 7249
pad = 6150
"#;

const FIRST_OF_9: &str = "b7020200 lui x5, 0x20
93081000 addi x17, x0, 1
f32600c0 rdcycle x13
b3c39300 xor x7, x7, x9
f32300c0 rdcycle x7
6304a300 beq x6, x10, .+8
73000000 ecall
03a5c26a lw x10, 1708(x5)
3346b600 xor x12, x12, x11
b3249400 slt x9, x8, x9
73000000 ecall
83a48265 lw x9, 1624(x5)
33a36400 slt x6, x9, x6
73000000 ecall
03a6c227 lw x12, 636(x5)
3344a400 xor x8, x8, x10
73000000 ecall
23a07234 sw x7, 832(x5)
3346c600 xor x12, x12, x12
13062548 addi x12, x10, 1154
83a6c229 lw x13, 668(x5)
732500c0 rdcycle x10
23a4c21e sw x12, 488(x5)
b3c4a400 xor x9, x9, x10
23a4d220 sw x13, 520(x5)
f32600c0 rdcycle x13
73000000 ecall
03a3826f lw x6, 1784(x5)
03a3024f lw x6, 1264(x5)
b3c3a300 xor x7, x7, x10
33467600 xor x12, x12, x7
93859366 addi x11, x7, 1641
23a6b204 sw x11, 76(x5)
1383362f addi x6, x13, 755
73000000 ecall
33248400 slt x8, x8, x8
f32300c0 rdcycle x7
b3a37300 slt x7, x7, x7
b3c69600 xor x13, x13, x9
6304d300 beq x6, x13, .+8
f32600c0 rdcycle x13
03a4027d lw x8, 2000(x5)
73000000 ecall
93031641 addi x7, x12, 1041
73000000 ecall
f32500c0 rdcycle x11
b3c66600 xor x13, x13, x6
f32400c0 rdcycle x9
03a48229 lw x8, 664(x5)
33a48400 slt x8, x9, x8
732400c0 rdcycle x8
6384d400 beq x9, x13, .+8
f32500c0 rdcycle x11
33459500 xor x10, x10, x9
33447400 xor x8, x8, x7
3343a300 xor x6, x6, x10
83a30216 lw x7, 352(x5)
23ac7200 sw x7, 24(x5)
23aac202 sw x12, 52(x5)
63046500 beq x10, x6, .+8
73000000 ecall
b3c6c600 xor x13, x13, x12
83a4c230 lw x9, 780(x5)
33a48300 slt x8, x7, x8
3344a400 xor x8, x8, x10
23a29240 sw x9, 1028(x5)
13000000 addi x0, x0, 0
13000000 addi x0, x0, 0
6ff09fef jal x0, .-264";

const SECOND_OF_9: &str = "b7020200 lui x5, 0x20
93081000 addi x17, x0, 1
23a0d25a sw x13, 1440(x5)
f32300c0 rdcycle x7
23a2d274 sw x13, 1860(x5)
23a0b256 sw x11, 1376(x5)
23a0a20e sw x10, 224(x5)
732400c0 rdcycle x8
73000000 ecall
3326c500 slt x12, x10, x12
b3a5b500 slt x11, x11, x11
3325a300 slt x10, x6, x10
33a6c600 slt x12, x13, x12
33a5a600 slt x10, x13, x10
b3237300 slt x7, x6, x7
33236400 slt x6, x8, x6
23a2c26a sw x12, 1700(x5)
23a88216 sw x8, 368(x5)
63848400 beq x9, x8, .+8
6304c600 beq x12, x12, .+8
b3c6a600 xor x13, x13, x10
732600c0 rdcycle x12
83a3020e lw x7, 224(x5)
73000000 ecall
83a6c213 lw x13, 316(x5)
732500c0 rdcycle x10
03a64230 lw x12, 772(x5)
03a4c26e lw x8, 1772(x5)
83a3c240 lw x7, 1036(x5)
23a4627e sw x6, 2024(x5)
73000000 ecall
b3249600 slt x9, x12, x9
73000000 ecall
93848644 addi x9, x13, 1096
33236400 slt x6, x8, x6
732500c0 rdcycle x10
83a64242 lw x13, 1060(x5)
f32300c0 rdcycle x7
63846300 beq x7, x6, .+8
33a48500 slt x8, x11, x8
23ac722c sw x7, 728(x5)
b3c6c600 xor x13, x13, x12
f32600c0 rdcycle x13
6304a600 beq x12, x10, .+8
13867310 addi x12, x7, 263
3343a300 xor x6, x6, x10
9386951b addi x13, x11, 441
23a67206 sw x7, 108(x5)
33236400 slt x6, x8, x6
23a0a210 sw x10, 256(x5)
23a67250 sw x7, 1292(x5)
f32500c0 rdcycle x11
73000000 ecall
732500c0 rdcycle x10
732600c0 rdcycle x12
f32500c0 rdcycle x11
732600c0 rdcycle x12
732400c0 rdcycle x8
13063414 addi x12, x8, 323
03a68211 lw x12, 280(x5)
23aac27a sw x12, 1972(x5)
83a50277 lw x11, 1904(x5)
f32500c0 rdcycle x11
33a6c300 slt x12, x7, x12
83a5c210 lw x11, 268(x5)
03a60220 lw x12, 512(x5)
13000000 addi x0, x0, 0
13000000 addi x0, x0, 0
6ff09fef jal x0, .-264";

const SEED_13: &str = r#"# Generated from seed 13, by: ./tp gen --seed 13

# ---- the machine

frames = 128
shared = 512
line = 64
l1i = { sets = 16, ways = 2, policy = "lru" }
l1d = { sets = 16, ways = 2, policy = "lru" }
l2 = { sets = 512, ways = 4, policy = "fifo" }
tlb = { sets = 4, ways = 2, policy = "lru" }
predictor = 16
costs = { base = 1, l1 = 1, l2 = 8, mem = 40, wb = 10, tlb = 1, mispredict = 3, trap = 10, flush = 20 }

# ---- domain 0

[[domain]]
name = "g0"
colours = [1]
entry = 0x10000
caps = ["irq 0"]
lines = [0]
moments = [[15228, 0], [36246, 0], [43407, 0], [70065, 0], [86195, 0], [103033, 0], [124561, 0], [151052, 0]]
segment = [
    { page = 16, pages = 1, rights = "rx", hex = "@0" },
    { page = 32, pages = 1, rights = "rw", hex = "" },
]

# ---- domain 1

[[domain]]
name = "g1"
colours = [2]
entry = 0x10000
caps = ["irq 1"]
lines = [1]
moments = [[12226, 1], [30643, 1], [53804, 1], [69121, 1], [97903, 1], [101055, 1], [136189, 1], [152421, 1]]
segment = [
    { page = 16, pages = 1, rights = "rx", hex = "@1" },
    { page = 32, pages = 1, rights = "rw", hex = "" },
]

# ---- the schedule

[[schedule]]
domain = 0
length = 7045
pad = 6150

[[schedule]]
domain = 1
length = 8982
pad = 6150
"#;

const FIRST_OF_13: &str = "b7020200 lui x5, 0x20
93081000 addi x17, x0, 1
33a6c400 slt x12, x9, x12
3345d500 xor x10, x10, x13
3326c600 slt x12, x12, x12
23a4825e sw x8, 1512(x5)
33236400 slt x6, x8, x6
93032317 addi x7, x6, 370
63846600 beq x13, x6, .+8
732600c0 rdcycle x12
23ae625e sw x6, 1532(x5)
63049400 beq x8, x9, .+8
83a38242 lw x7, 1064(x5)
13064637 addi x12, x12, 884
73000000 ecall
63046400 beq x8, x6, .+8
63047500 beq x10, x7, .+8
23a8a200 sw x10, 16(x5)
23a0a256 sw x10, 1376(x5)
33449400 xor x8, x8, x9
b3a5b400 slt x11, x9, x11
03a5c239 lw x10, 924(x5)
f32600c0 rdcycle x13
6384d400 beq x9, x13, .+8
03a30201 lw x6, 16(x5)
6384d300 beq x7, x13, .+8
83a68274 lw x13, 1864(x5)
63849600 beq x13, x9, .+8
f32600c0 rdcycle x13
73000000 ecall
33248400 slt x8, x8, x8
6304a300 beq x6, x10, .+8
9304e66c addi x9, x12, 1742
63048400 beq x8, x8, .+8
3344a400 xor x8, x8, x10
1305c40a addi x10, x8, 172
73000000 ecall
23a0623e sw x6, 992(x5)
73000000 ecall
33a5a300 slt x10, x7, x10
732600c0 rdcycle x12
73000000 ecall
63047500 beq x10, x7, .+8
f32600c0 rdcycle x13
23ac8258 sw x8, 1432(x5)
1386c356 addi x12, x7, 1388
63047500 beq x10, x7, .+8
33236300 slt x6, x6, x6
b3c3d300 xor x7, x7, x13
63848400 beq x9, x8, .+8
1385941b addi x10, x9, 441
23aed222 sw x13, 572(x5)
23aac218 sw x12, 404(x5)
732400c0 rdcycle x8
b3249300 slt x9, x6, x9
83a3c20a lw x7, 172(x5)
b3c6c600 xor x13, x13, x12
23a88216 sw x8, 368(x5)
b3a49300 slt x9, x7, x9
6304a600 beq x12, x10, .+8
b3c4b400 xor x9, x9, x11
23a4a202 sw x10, 40(x5)
93846452 addi x9, x9, 1318
33236600 slt x6, x12, x6
b3c69600 xor x13, x13, x9
13050414 addi x10, x8, 320
13000000 addi x0, x0, 0
13000000 addi x0, x0, 0
6ff09fef jal x0, .-264";

const SECOND_OF_13: &str = "b7020200 lui x5, 0x20
93081000 addi x17, x0, 1
732600c0 rdcycle x12
f32500c0 rdcycle x11
732500c0 rdcycle x10
23a2822c sw x8, 708(x5)
b325b500 slt x11, x10, x11
f32600c0 rdcycle x13
3346b600 xor x12, x12, x11
732400c0 rdcycle x8
03a4426c lw x8, 1732(x5)
23aa7226 sw x7, 628(x5)
732500c0 rdcycle x10
13033575 addi x6, x10, 1875
73000000 ecall
33a48600 slt x8, x13, x8
73000000 ecall
b325b400 slt x11, x8, x11
6384a600 beq x13, x10, .+8
732300c0 rdcycle x6
b3c5d500 xor x11, x11, x13
b3c49400 xor x9, x9, x9
63849500 beq x11, x9, .+8
33a36400 slt x6, x9, x6
6304d500 beq x10, x13, .+8
9385b36c addi x11, x7, 1739
73000000 ecall
13065429 addi x12, x8, 661
13052438 addi x10, x8, 898
73000000 ecall
f32500c0 rdcycle x11
9304c650 addi x9, x12, 1292
03a3c27d lw x6, 2012(x5)
83a44245 lw x9, 1108(x5)
6304d300 beq x6, x13, .+8
b3a5b600 slt x11, x13, x11
33236400 slt x6, x8, x6
732300c0 rdcycle x6
732300c0 rdcycle x6
03a58235 lw x10, 856(x5)
f32300c0 rdcycle x7
83a34205 lw x7, 84(x5)
23a6b25c sw x11, 1484(x5)
83a4824f lw x9, 1272(x5)
b326d300 slt x13, x6, x13
b3a6d500 slt x13, x11, x13
73000000 ecall
b3c5d500 xor x11, x11, x13
83a48261 lw x9, 1560(x5)
23a6a264 sw x10, 1612(x5)
33a5a500 slt x10, x11, x10
3344b400 xor x8, x8, x11
73000000 ecall
93035449 addi x7, x8, 1173
23ae7258 sw x7, 1436(x5)
f32500c0 rdcycle x11
73000000 ecall
b3237300 slt x7, x6, x7
03a6424b lw x12, 1204(x5)
63847300 beq x7, x7, .+8
33a6c400 slt x12, x9, x12
b3a6d600 slt x13, x13, x13
b3c6d600 xor x13, x13, x13
b3a5b500 slt x11, x11, x11
1386b308 addi x12, x7, 139
73000000 ecall
13000000 addi x0, x0, 0
13000000 addi x0, x0, 0
6ff09fef jal x0, .-264";

const SEED_8: &str = r#"# Generated from seed 8, by: ./tp gen --seed 8

# ---- the machine

frames = 128
shared = 512
line = 64
l1i = { sets = 16, ways = 2, policy = "lru" }
l1d = { sets = 16, ways = 2, policy = "lru" }
l2 = { sets = 512, ways = 4, policy = "plru" }
tlb = { sets = 4, ways = 2, policy = "lru" }
predictor = 16
costs = { base = 1, l1 = 1, l2 = 8, mem = 40, wb = 10, tlb = 1, mispredict = 3, trap = 10, flush = 20 }

# ---- domain 0

[[domain]]
name = "g0"
colours = [1]
entry = 0x10000
caps = ["irq 0"]
lines = [0]
moments = [[12054, 0], [20730, 0], [44942, 0], [71221, 0], [80757, 0], [111190, 0], [120516, 0], [151205, 0]]
segment = [
    { page = 16, pages = 1, rights = "rx", hex = "@0" },
    { page = 32, pages = 1, rights = "rw", hex = "" },
]

# ---- domain 1

[[domain]]
name = "g1"
colours = [2]
entry = 0x10000
caps = ["irq 1"]
lines = [1]
moments = [[19938, 1], [34841, 1], [53761, 1], [65081, 1], [84348, 1], [106773, 1], [134769, 1], [156350, 1]]
segment = [
    { page = 16, pages = 1, rights = "rx", hex = "@1" },
    { page = 32, pages = 1, rights = "rw", hex = "" },
]

# ---- the schedule

[[schedule]]
domain = 0
length = 6983
pad = 6150

[[schedule]]
domain = 1
length = 8250
pad = 6150
"#;

const FIRST_OF_8: &str = "b7020200 lui x5, 0x20
93081000 addi x17, x0, 1
b3c56500 xor x11, x11, x6
33449400 xor x8, x8, x9
6304b300 beq x6, x11, .+8
03a6021e lw x12, 480(x5)
63847500 beq x11, x7, .+8
63847300 beq x7, x7, .+8
23a4b268 sw x11, 1672(x5)
6304d400 beq x8, x13, .+8
23a2625a sw x6, 1444(x5)
03a38270 lw x6, 1800(x5)
13047365 addi x8, x6, 1623
9304e525 addi x9, x10, 606
f32500c0 rdcycle x11
73000000 ecall
6384b400 beq x9, x11, .+8
23aa7202 sw x7, 52(x5)
63848600 beq x13, x8, .+8
b325b500 slt x11, x10, x11
f32600c0 rdcycle x13
6384c300 beq x7, x12, .+8
1303b371 addi x6, x6, 1819
33a5a600 slt x10, x13, x10
03a64231 lw x12, 788(x5)
23acc242 sw x12, 1080(x5)
b3249400 slt x9, x8, x9
63046400 beq x8, x6, .+8
83a38227 lw x7, 632(x5)
f32400c0 rdcycle x9
73000000 ecall
03a5021d lw x10, 464(x5)
b3a37600 slt x7, x13, x7
23ac8262 sw x8, 1592(x5)
33458500 xor x10, x10, x8
b3249500 slt x9, x10, x9
33a5a400 slt x10, x9, x10
b3c57500 xor x11, x11, x7
83a30256 lw x7, 1376(x5)
6384c400 beq x9, x12, .+8
23a6824c sw x8, 1228(x5)
73000000 ecall
23a08258 sw x8, 1408(x5)
33236400 slt x6, x8, x6
b3c6c600 xor x13, x13, x12
73000000 ecall
73000000 ecall
b3c5b500 xor x11, x11, x11
23a88268 sw x8, 1680(x5)
63049400 beq x8, x9, .+8
3326c500 slt x12, x10, x12
23a4a268 sw x10, 1672(x5)
33a48400 slt x8, x9, x8
93047600 addi x9, x12, 7
03a34237 lw x6, 884(x5)
1383733e addi x6, x7, 999
f32600c0 rdcycle x13
33449400 xor x8, x8, x9
1306933b addi x12, x6, 953
1386d450 addi x12, x9, 1293
63848600 beq x13, x8, .+8
6384c600 beq x13, x12, .+8
73000000 ecall
63848400 beq x9, x8, .+8
73000000 ecall
83a64268 lw x13, 1668(x5)
13000000 addi x0, x0, 0
13000000 addi x0, x0, 0
6ff09fef jal x0, .-264";

const SECOND_OF_8: &str = "b7020200 lui x5, 0x20
93081000 addi x17, x0, 1
63049300 beq x6, x9, .+8
6384b300 beq x7, x11, .+8
1385432f addi x10, x7, 756
33458500 xor x10, x10, x8
b3c58500 xor x11, x11, x8
6304b600 beq x12, x11, .+8
33a36400 slt x6, x9, x6
73000000 ecall
6304d400 beq x8, x13, .+8
23ac9278 sw x9, 1944(x5)
6384a500 beq x11, x10, .+8
23a2b26a sw x11, 1700(x5)
6304b400 beq x8, x11, .+8
63047600 beq x12, x7, .+8
b3c36300 xor x7, x7, x6
6304c500 beq x10, x12, .+8
83a4c26f lw x9, 1788(x5)
6384a400 beq x9, x10, .+8
23ac7218 sw x7, 408(x5)
f32600c0 rdcycle x13
b325b300 slt x11, x6, x11
f32400c0 rdcycle x9
f32500c0 rdcycle x11
73000000 ecall
33236400 slt x6, x8, x6
73000000 ecall
b3a5b400 slt x11, x9, x11
03a3c219 lw x6, 412(x5)
f32500c0 rdcycle x11
b3a49300 slt x9, x7, x9
33448400 xor x8, x8, x8
63849300 beq x7, x9, .+8
13858602 addi x10, x13, 40
93064344 addi x13, x6, 1092
63846300 beq x7, x6, .+8
9384864b addi x9, x13, 1208
b3c39300 xor x7, x7, x9
33449400 xor x8, x8, x9
23a6c24e sw x12, 1260(x5)
33448400 xor x8, x8, x8
b3c57500 xor x11, x11, x7
63047600 beq x12, x7, .+8
23aea20a sw x10, 188(x5)
33436300 xor x6, x6, x6
b3c4d400 xor x9, x9, x13
732500c0 rdcycle x10
73000000 ecall
b3237300 slt x7, x6, x7
73000000 ecall
f32300c0 rdcycle x7
83a30264 lw x7, 1600(x5)
b3a5b500 slt x11, x11, x11
6304b300 beq x6, x11, .+8
33448400 xor x8, x8, x8
73000000 ecall
23aa827e sw x8, 2036(x5)
63048300 beq x6, x8, .+8
6384c400 beq x9, x12, .+8
6304a400 beq x8, x10, .+8
23a0c268 sw x12, 1664(x5)
23a26258 sw x6, 1412(x5)
73000000 ecall
73000000 ecall
f32600c0 rdcycle x13
13000000 addi x0, x0, 0
13000000 addi x0, x0, 0
6ff09fef jal x0, .-264";
