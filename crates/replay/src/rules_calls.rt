// The calls of the rules: reference price, shares, tranches, profiles.
ghost use Rattle.std.specs.Prelude.{◌≡◌};
ghost use Rattle.rulebook.specs.Calls.{share_call};
ghost use Rattle.replay.specs.Frames.{SharedFrom};

use crate::{input, output};
use robijan::rules_calls::{
    robijan_price, robijan_profile, robijan_second_share, robijan_share, robijan_tranche,
};
use rulebook::Edition;

const LIST_WORDS: usize = 40;

const PROFILE_WORDS: usize = 64;

pub fn price() {
    input::with_list::<LIST_WORDS, _>(|mep| {
        input::with_list::<LIST_WORDS, _>(|ieq| {
            let answer = robijan_price(mep, ieq);
            output::name(b"price");
            output::figure(answer.number);
            output::figure(answer.price);
            output::digest(mep);
            output::digest(ieq);
            output::end();
        });
    });
}

// The share call of an edition, after its name. Edition, R and UEGQ are a frame's fields, handed to the call as they are; functions, here and
// below, whose contracts say what the lent words become.
fn share_called(edition: Edition, r: i64, uegq: &[i64], lent: &mut [i64]) -> u64
    ensures { record { number = result; output = lent.new } ≡ share_call edition r uegq.now lent.old }
{
    match edition {
        Edition::First => {
            output::name(b"share");
            robijan_share(r, uegq, lent)
        }
        Edition::Second => {
            output::name(b"second-share");
            robijan_second_share(r, uegq, lent)
        }
    }
}

fn share_to(edition: Edition, r: i64, uegq: &[i64], lent: &mut [i64])
    ensures { lent.new ≡ (share_call edition r uegq.now lent.old).output }
{
    let number = share_called(edition, r, uegq, lent);
    output::figure(number);
    output::digest(uegq);
    output::words(lent);
    output::end();
}

fn share_from(edition: Edition, r: i64, uegqs: &mut [i64], space: &mut [i64])
    ensures { SharedFrom edition r uegqs.old space.old uegqs.new space.new }
{
    let m = input::list(uegqs);
    let n = input::count(space);
    share_to(edition, r, &uegqs[..m], &mut space[..n]);
}

pub fn share(edition: Edition) {
    let r = input::word();
    let z = input::word();
    let mut uegqs = [0i64; LIST_WORDS];
    let mut space = [z; LIST_WORDS];
    share_from(edition, r, &mut uegqs, &mut space);
}

pub fn tranche() {
    let rvq = input::word();
    let bvq = input::word();
    let mq = input::word();
    let answer = robijan_tranche(rvq, bvq, mq);
    output::name(b"tranche");
    output::figure(answer.number);
    output::figure(answer.first);
    output::figure(answer.second);
    output::end();
}

pub fn profile() {
    let total = input::word();
    let contracted = input::word();
    input::with_list::<PROFILE_WORDS, _>(|profile| {
        let answer = robijan_profile(profile, total, contracted);
        output::name(b"profile");
        output::figure(answer.number);
        output::figure(answer.keeps);
        output::digest(profile);
        output::end();
    });
}
