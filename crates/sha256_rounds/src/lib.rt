// The message schedule and the 64 rounds of FIPS 180-4, 6.2.2.
// The schedule is kept as a window of 16 words. Each of the first 48 rounds takes the window's first word and moves the
// window on by one (a turn); the last 16 rounds take the words that are left.
#![tactic(auto)]

ghost use Rattle.std.specs.Prelude.{◌≡◌, ◌+◌, ◌≤◌};
ghost use Rattle.sha256.specs.Sha256.{round as round_of};
ghost use Rattle.sha256_rounds.specs.Window.{turned, turns, last_rounds};

use constants::Constants;
use sha256_words::{big0, big1, choice, majority, small0, small1};

pub mod constants;

// One round. Ch is computed before Σ1, and T2's terms are added to T1 one by one, Maj first: so the compiler moves less.
fn round(v: [u32; 8], k: u32, w: u32) -> [u32; 8]
    ensures { result ≡ round_of v k w }
{
    let [a, b, c, d, e, f, g, h] = v;
    let ch = choice(e, f, g);
    let t1 = h
        .wrapping_add(big1(e))
        .wrapping_add(ch)
        .wrapping_add(k)
        .wrapping_add(w);
    let first = t1.wrapping_add(majority(a, b, c)).wrapping_add(big0(a));
    [first, a, b, c, d.wrapping_add(t1), e, f, g]
}

// The working variables and the next 16 words of the schedule.
// Not `Copy`: each turn takes the window and gives the next.
#[derive(Drop)]
pub struct Window {
    pub w: [u32; 16],
    pub v: [u32; 8],
}

// One round with the window's first word; the window moves on by one word. The new word's terms are added in another order than the
// standard's: so the compiler moves less.
fn turn(s: Window, k: u32) -> Window
    ensures { result ≡ turned s k }
{
    let v = s.v;
    let w = s.w;
    let x = w[0]
        .wrapping_add(small0(w[1]))
        .wrapping_add(w[9])
        .wrapping_add(small1(w[14]));
    let next = [
        w[1], w[2], w[3], w[4], w[5], w[6], w[7], w[8], w[9], w[10], w[11], w[12], w[13], w[14],
        w[15], x,
    ];
    let after = round(v, k, w[0]);
    Window { v: after, w: next }
}

// Two turns, the first with the constant at t: a step of the unrolled sixteen, which are eight lines so, and eight joins in the proof.
fn turns2(s: Window, k: &Constants, t: usize) -> Window
    requires { t + 2 ≤ 64 }
    ensures { result ≡ turns 2 s t }
{
    turn(turn(s, k.at(t)), k.at(t + 1))
}

// Sixteen turns, the first with the constant at T, unrolled: after them each word of the window stands where it stood, so that nothing
// is moved. T is a const parameter, so that each sixteen are a function of their own with one caller, which the compiler puts there.
fn turns16<const T: usize>(s: Window, k: &Constants) -> Window
    requires { T + 16 ≤ 64 }
    ensures { result ≡ turns 16 s T }
{
    let s = turns2(s, k, T);
    let s = turns2(s, k, T + 2);
    let s = turns2(s, k, T + 4);
    let s = turns2(s, k, T + 6);
    let s = turns2(s, k, T + 8);
    let s = turns2(s, k, T + 10);
    let s = turns2(s, k, T + 12);
    turns2(s, k, T + 14)
}

// The first 48 rounds, with no loop: at the end of one, the compiler moves words and working variables back to where they stood at its
// start.
pub fn turns48(s0: Window, k: &Constants) -> Window
    ensures { result ≡ turns 48 s0 0 }
{
    let s = turns16::<0>(s0, k);
    let s = turns16::<16>(s, k);
    turns16::<32>(s, k)
}

// Two of the last rounds, which take the words that are left, the first with the word at t: in twos as the turns.
fn rounds2(v: [u32; 8], w: &[u32; 16], k: &Constants, t: usize) -> [u32; 8]
    requires { t + 2 ≤ 16 }
    ensures { result ≡ last_rounds 2 v w.now t }
{
    round(round(v, k.at(48 + t), w[t]), k.at(49 + t), w[t + 1])
}

// The last 16 rounds, unrolled as the turns are.
pub fn rounds16(v: [u32; 8], w: &[u32; 16], k: &Constants) -> [u32; 8]
    ensures { result ≡ last_rounds 16 v w.now 0 }
{
    let v = rounds2(v, w, k, 0);
    let v = rounds2(v, w, k, 2);
    let v = rounds2(v, w, k, 4);
    let v = rounds2(v, w, k, 6);
    let v = rounds2(v, w, k, 8);
    let v = rounds2(v, w, k, 10);
    let v = rounds2(v, w, k, 12);
    rounds2(v, w, k, 14)
}
