//! The generator of a seed, and what is drawn from it.
ghost use Rattle.std.specs.Prelude.{◌≡◌, ◌<◌};
ghost use Rattle.grow_run.specs.Draws as spec;

use crate::choice::RandomEvent;
use plan_base::{Dev, Host};
use rand_core::utils::NextWord;
use rand_pcg::Lcg64Xsh32;

/// The generator of a seed, on stream 1.
pub fn begin(seed: u64) -> Lcg64Xsh32
    ensures { result ≡ spec.seeded_generator seed }
{
    Lcg64Xsh32::new(seed, 1)
}

/// The next word modulo `k`. Condition: `k` isn't 0.
fn draw(words: &mut Lcg64Xsh32, k: u32) -> u32
    requires { 0 < k }
    ensures { (result, words.new) ≡ spec.draw k words.old }
{
    words.next_word() % k
}

/// A host from 1 to 8.
fn draw_host(words: &mut Lcg64Xsh32) -> Host
    ensures { (result, words.new) ≡ spec.draw_host words.old }
{
    Host(1 + draw(words, 8))
}

/// A device from 0 to 2.
fn draw_dev(words: &mut Lcg64Xsh32) -> Dev
    ensures { (result, words.new) ≡ spec.draw_dev words.old }
{
    Dev(draw(words, 3))
}

fn choose_tick(words: &mut Lcg64Xsh32) -> RandomEvent
    ensures { (result, words.new) ≡ spec.choose_tick words.old }
{
    RandomEvent::Tick(draw_host(words))
}

fn choose_inject(words: &mut Lcg64Xsh32) -> RandomEvent
    ensures { (result, words.new) ≡ spec.choose_inject words.old }
{
    let from = draw_host(words);
    let to = draw_host(words);
    RandomEvent::Inject(from, to)
}

fn choose_send(words: &mut Lcg64Xsh32) -> RandomEvent
    ensures { (result, words.new) ≡ spec.choose_send words.old }
{
    let host = draw_host(words);
    let dev = draw_dev(words);
    RandomEvent::Send(host, dev)
}

/// The choice after the first draw, which is below 16.
#[tactic(auto, unfolding(crate::specs::Draws::choose_by))]
fn choose_by(words: &mut Lcg64Xsh32, r: u32, lowest: u32, highest: u32) -> RandomEvent
    ensures { (result, words.new) ≡ spec.choose_by r lowest highest words.old }
{
    if r == 0 {
        RandomEvent::Lose(lowest)
    } else if r == 1 {
        choose_tick(words)
    } else if r < 4 {
        choose_inject(words)
    } else if r < 10 {
        choose_send(words)
    } else if r < 14 {
        RandomEvent::Deliver(lowest)
    } else {
        RandomEvent::Deliver(highest)
    }
}

/// The next choice, where these are the lowest and the highest number on the wire. Where nothing is on the
/// wire, number 1 stands for both.
#[tactic(auto, unfolding(crate::specs::Draws::choose))]
pub fn choose(words: &mut Lcg64Xsh32, lowest: Option<u32>, highest: Option<u32>) -> RandomEvent
    ensures { (result, words.new) ≡ spec.choose lowest highest words.old }
{
    let r = draw(words, 16);
    choose_by(words, r, lowest.unwrap_or(1), highest.unwrap_or(1))
}
