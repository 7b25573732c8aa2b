//! What `unmine` and `dump` answer.
use crate::replay_tests::{Row, even, replays};
use replay::Status;
use std::alloc::{AllocError, Global};
use std::process::Abort;
use std::test::Fail;

/// Inputs of `replay` that take mined blocks back, with their outputs.
const MINED: [Row; 6] = [
    (
        "add 1 5 5\nadd 2 7 7\ndep 1 2\nmine 1\nancestors 2 main\nunmine\nancestors 2 main\nunmine\n",
        "ok\nok\nok\nok\nids 2\nunmined 1\nids 1 2\nrefused noblock\n",
    ),
    (
        "add 1 5 5\nmine 1\nadd 1 6 6\nunmine\nremove 1\nunmine\nchunk 1\n",
        "ok\nok\nok\nrefused back 1\nok\nunmined 1\nchunk 5 5 1\n",
    ),
    (
        "limits 2 1000 10\nadd 1 1 1\nadd 2 1 1\ndep 1 2\nmine 1\nadd 3 1 1\ndep 2 3\nunmine\nstage\nunmine\n",
        "ok\nok\nok\nok\nok\nok\nok\nrefused count 3\nok\nrefused staging\n",
    ),
    (
        "limits 9 6 3\nadd 1 1 3\nadd 2 1 3\ndep 1 2\nmine 1\nadd 3 1 2\nadd 4 1 1\nunmine\nremove 4\ndep 2 3\nunmine\nremove 3\nunmine\n",
        "ok\nok\nok\nok\nok\nok\nok\nrefused full\nok\nok\nrefused clustersize 8\nok\nunmined 1\n",
    ),
    (
        "add 1 1 1\nadd 2 2 2\nadd 3 3 3\ndep 1 2\ndep 2 3\nmine 2 1\nremove 3\nadd 3 9 9\nmine 9\nunmine\nproof main\nlimits 64 1 1\n",
        "ok\nok\nok\nok\nok\nok\nok\nok\nrefused unknown 9\nunmined 2 1\ntx 1 1 1\ntx 2 2 2\ntx 3 9 9\nedge 1 2\nedge 2 3\n\
         chunk 1 1 1\nchunk 2 2 2\nchunk 9 9 3\nend\nrefused late\n",
    ),
    (
        "limits 2 9 9 defer\nadd 1 1 1\nadd 2 2 2\nadd 3 3 3\ndep 1 2\ndep 2 3\nmine 1 2\nunmine\norder main\nmine 1\norder main\n",
        "ok\nok\nok\nok\nok\nok\nok\nunmined 1 2\nrefused oversized\nok\nchunk 2 2 2\nchunk 3 3 3\nend\n",
    ),
];

/// Inputs of `replay` that ask for the text of main, with their outputs.
const DUMPS: [Row; 4] = [
    (
        "add 2 900 200\nadd 1 100 200\ndep 1 2\ndump\n",
        "ok\nok\nok\ntx 1 100 200\ntx 2 900 200\nedge 1 2\nend\n",
    ),
    ("dump\ndump main\n", "end\nrefused syntax\n"),
    (
        "add 9 -1 1\nadd 4 2 2\nadd 6 3 3\nadd 5 0 1\ndep 9 4\ndep 4 5\ndep 9 5\ndep 6 5\nstage\nremove 4\ndump\n",
        "ok\nok\nok\nok\nok\nok\nok\nok\nok\nok\ntx 4 2 2\ntx 5 0 1\ntx 6 3 3\ntx 9 -1 1\nedge 9 4\nedge 4 5\nedge 6 5\nend\n",
    ),
    (
        "limits 1 9 9 defer\nadd 1 1 1\nadd 2 1 1\ndep 1 2\ndump\nremove 2\ndump\n",
        "ok\nok\nok\nok\nrefused oversized\nok\ntx 1 1 1\nend\n",
    ),
];

fn mined() -> &'static [Row] {
    &MINED
}

fn dumps() -> &'static [Row] {
    &DUMPS
}

#[test]
fn blocks_that_are_taken_back_are_told(rt: HostRuntime) -> Result<(), Fail> {
    for (input, output) in mined() {
        replays(&rt, rt.alloc(), input, even(4096), (Status::Done, output))?;
    }
    Ok(())
}

#[test]
fn texts_of_main_are_told(rt: HostRuntime) -> Result<(), Fail> {
    for (input, output) in dumps() {
        replays(&rt, rt.alloc(), input, even(4096), (Status::Done, output))?;
    }
    Ok(())
}

/// Lines that mine a block of one name 101 times and take back one time more than they may, and their replies.
fn many_blocks(alloc: Global) -> Result<(String, String), AllocError> {
    let mut input = String::new(alloc);
    let mut output = String::new(alloc);
    for id in 1..102 {
        input.push_str(&format!(in alloc; "add {id} 1 1\nmine {id}\n")?)?;
        output.push_str("ok\nok\n")?;
    }
    for back in 0..101 {
        input.push_str("unmine\n")?;
        let id: u64 = 101_u64.saturating_sub(back);
        match back {
            0..100 => output.push_str(&format!(in alloc; "unmined {id}\n")?)?,
            _ => output.push_str("refused noblock\n")?,
        }
    }
    input.push_str("count main\n")?;
    output.push_str("count 100\n")?;
    Ok((input, output))
}

#[test]
fn a_hundred_blocks_are_kept(rt: HostRuntime) -> Result<(), Fail> {
    let (input, output) = many_blocks(rt.alloc())?;
    replays(&rt, rt.alloc(), &input, even(4096), (Status::Done, &output))
}
