//! Machines that tests read.

/// A machine with one accumulator.
pub const ACCUMULATOR: &[u8] = br#"reg PC[1, card(4)]
reg A[1, int(8)]
out OUT[int(8)]
op instruction = ldi | outa | hlt
op ldi(n: int(8))
  syntax = format("ldi %d", n)
  image = format("01%8b", n)
  action = { A = n; }
op outa()
  syntax = "outa" image = "1000000000"
  action = { OUT = A; }
op hlt(k: card(2))
  syntax = format("hlt %d", k)
  image = format("00000000%2b", k)
  action = { halt(k); }
"#;

/// A machine with two slots of one kind of move.
pub const TWO_SLOTS: &[u8] = br#"reg PC[1, card(4)]
reg R[4, int(8)]
out OUT[int(8)]
op instruction = par | put | set | stop
op par(a: mv, b: mv)
  syntax = format("%s | %s", a.syntax, b.syntax)
  image = format("00%s%s", a.image, b.image)
  action = { a.action; b.action; }
op mv(d: card(2), s: card(2))
  syntax = format("r%d = r%d", d, s)
  image = format("%2b%2b", d, s)
  action = { R[d] = R[s]; }
op put(s: card(2))
  syntax = format("put r%d", s)
  image = format("01000000%2b", s)
  action = { OUT = R[s]; }
op set(d: card(2), n: int(6))
  syntax = format("set r%d, %d", d, n)
  image = format("10%2b%6b", d, n)
  action = { R[d] = n; }
op stop()
  syntax = "stop" image = "1100000000"
  action = { halt(0); }
"#;

/// A machine with accumulators, address registers, an input port, a transitory, and one arithmetic and two move slots.
pub const LARGE: &[u8] = br#"type word = int(16)
type long = int(40)
reg PC[1, card(12)]
mem DM[1024, word]
reg X[1, word]
reg Y[1, word]
reg A[1, long]
reg B[1, long]
reg AR[2, card(10)]
inp IN[word]
out OUT[word]
trn P[int(32)]
op instruction = par | jmp | jeq | jne | jlt | jge | jr | ldi | hlt
op par(a: alu, m: move, r: xfer)
  syntax = format("%s | %s | %s", a.syntax, m.syntax, r.syntax)
  image = format("1%s%s%s", a.image, m.image, r.image)
  action = { a.action; m.action; r.action; }
op alu = anop | mul | mac | add | sub | and | or | xor | neg | shl | shr
op anop() syntax = "nop" image = "000000"
op mul() syntax = "mul" image = "000001" action = { P = X * Y; A = P; }
op mac() syntax = "mac" image = "000010" action = { P = X * Y; A = A + P; }
op add() syntax = "add" image = "000011" action = { A = A + X; }
op sub() syntax = "sub" image = "000100" action = { A = A - X; }
op and() syntax = "and" image = "000101" action = { A = A & X; }
op or() syntax = "or" image = "000110" action = { A = A | X; }
op xor() syntax = "xor" image = "000111" action = { A = A ^ X; }
op neg() syntax = "neg" image = "001000" action = { A = -A; }
op shl(k: card(4)) syntax = format("shl %d", k)
  image = format("10%4b", k) action = { A = A << k; }
op shr(k: card(4)) syntax = format("shr %d", k)
  image = format("11%4b", k) action = { A = X >> k; }
mode dir(n: card(10)) = DM[n]
  syntax = format("[%d]", n) image = format("%10b", n)
mode indm = ind | inc
mode ind(p: card(1)) = DM[AR[p]]
  syntax = format("[ar%d]", p) image = format("000000000%1b", p)
mode inc(p: card(1)) = DM[AR[p]]
  syntax = format("[ar%d+]", p) image = format("100000000%1b", p)
  action = { AR[p] = AR[p] + 1; }
op move = mnop | ldx | ldy | lda | sta | ldxi | ldyi | stai
op mnop() syntax = "nop" image = "0000000000000"
op ldx(m: dir) syntax = format("x = %s", m.syntax)
  image = format("001%s", m.image) action = { X = m; }
op ldy(m: dir) syntax = format("y = %s", m.syntax)
  image = format("010%s", m.image) action = { Y = m; }
op lda(m: dir) syntax = format("a = %s", m.syntax)
  image = format("011%s", m.image) action = { A = m; }
op sta(m: dir) syntax = format("%s = a", m.syntax)
  image = format("100%s", m.image) action = { m = A; }
op ldxi(m: indm) syntax = format("x = %s", m.syntax)
  image = format("101%s", m.image) action = { X = m; m.action; }
op ldyi(m: indm) syntax = format("y = %s", m.syntax)
  image = format("110%s", m.image) action = { Y = m; m.action; }
op stai(m: indm) syntax = format("%s = a", m.syntax)
  image = format("111%s", m.image) action = { m = A; m.action; }
op xfer = rnop | rxa | rya | rax | rar | ryx | rba | rab | rout | rin
op rnop() syntax = "nop" image = "0000"
op rxa() syntax = "x = a" image = "0001" action = { X = A; }
op rya() syntax = "y = a" image = "0010" action = { Y = A; }
op rax() syntax = "a = x" image = "0011" action = { A = X; }
op rar(p: card(1)) syntax = format("ar%d = a", p)
  image = format("010%1b", p) action = { AR[p] = A; }
op ryx() syntax = "y = x" image = "0110" action = { Y = X; }
op rba() syntax = "b = a" image = "0111" action = { B = A; }
op rab() syntax = "a = b" image = "1000" action = { A = B; }
op rout() syntax = "out a" image = "1001" action = { OUT = A; }
op rin() syntax = "x = in" image = "1010" action = { X = IN; }
op jmp(t: card(12)) syntax = format("jmp %d", t)
  image = format("000000000000%12b", t) action = { PC = t; }
op jeq(t: card(12)) syntax = format("jeq %d", t)
  image = format("000000000001%12b", t) action = { if X == Y then PC = t; endif; }
op jne(t: card(12)) syntax = format("jne %d", t)
  image = format("000000000010%12b", t) action = { if X != Y then PC = t; endif; }
op jlt(t: card(12)) syntax = format("jlt %d", t)
  image = format("000000000011%12b", t) action = { if X < Y then PC = t; endif; }
op jge(t: card(12)) syntax = format("jge %d", t)
  image = format("000000000100%12b", t) action = { if X >= Y then PC = t; endif; }
op jr() syntax = "jr x" image = "000000000101000000000000" action = { PC = X; }
op hlt(k: card(8)) syntax = format("hlt %d", k)
  image = format("0000000001100000%8b", k) action = { halt(k); }
op ldi(n: int(16)) syntax = format("ldi %d", n)
  image = format("00000001%16b", n) action = { X = n; }
"#;
