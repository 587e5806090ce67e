// What a stop leaves, as the log of a device tells it.
ghost use Rattle.std.specs.Prelude.{◌≡◌, ℕ, List, IfOk, OnOk};
ghost use Rattle.tdb_platform.specs.LeftAnchor.{anchor_after, anchor_of};
ghost use Rattle.tdb_platform.specs.LeftImage.{image_after, image_of, refilled};
ghost use Rattle.tdb_platform.specs.Logs.{calls_of, event_of};
ghost use Rattle.tdb_platform.specs.Outside.{Anchor};
ghost use Rattle.tdb_platform.specs.Replay.{stand_after};

use crate::call::{Call, Entry};
use crate::crash::{AnchorLeft, ImageLeft};
use crate::image::{overwrite, write_over};
use std::alloc::{AllocError, Global};

// Puts into a written range what a stop leaves there.
fn refill(
    alloc: Global,
    how: ImageLeft,
    image: &mut Vec<u8>,
    at: usize,
    piece: &[u8],
) -> Result<(), AllocError>
    ensures { OnOk result (image.new.items ≡ refilled how image.old.items at piece.now) }
{
    match how {
        ImageLeft::Old => Ok(()),
        ImageLeft::New => overwrite(image, at, piece),
        ImageLeft::Torn(byte) => {
            let torn = vec![in alloc; byte; piece.len()]?;
            write_over(image, at, &torn, byte)
        }
    }
}

// Goes on by a call: in the image that reads give, and in the one that a stop leaves.
fn replay_image(
    alloc: Global,
    how: ImageLeft,
    image: &mut Vec<u8>,
    left: &mut Vec<u8>,
    call: &Call,
) -> Result<(), AllocError>
    ensures image { OnOk result ((a : Anchor) → image.new.items ≡ (stand_after (image.old.items, a) (event_of call.now)).0) }
    ensures left { OnOk result ((a : Anchor) → left.new.items ≡ image_after how (image.old.items, a) left.old.items (event_of call.now)) }
{
    match call {
        Call::Write { at, piece, failed } => {
            if !*failed {
                overwrite(image, *at as usize, piece)?;
            }
            refill(alloc, how, left, *at as usize, piece)
        }
        Call::Sync => {
            *left = image.to_vec(alloc)?;
            Ok(())
        }
        Call::Replace { at, bytes } => {
            overwrite(image, *at as usize, bytes)?;
            overwrite(left, *at as usize, bytes)
        }
        Call::Stop { image: stopped, .. } => {
            *image = stopped.to_vec(alloc)?;
            *left = stopped.to_vec(alloc)?;
            Ok(())
        }
        _ => Ok(()),
    }
}

/// The image that a stop leaves, of a device that began with these bytes.
pub fn image_left(
    alloc: Global,
    how: ImageLeft,
    start: &[u8],
    entries: &[Entry],
) -> Result<Vec<u8>, AllocError>
    ensures { IfOk result (λ left. (a : Anchor) → left.items ≡ image_of how (start.now, a) start.now (calls_of entries.now)) }
{
    let mut image = start.to_vec(alloc)?;
    let mut left = start.to_vec(alloc)?;
    for entry in entries {
        replay_image(alloc, how, &mut image, &mut left, &entry.call)?;
    }
    Ok(left)
}

// Goes on by a call: in the anchor that a look gives, and in the one that a stop leaves.
fn replay_anchor(
    how: AnchorLeft,
    anchor: &mut (u64, [u8; 32]),
    left: &mut (u64, [u8; 32]),
    call: &Call,
)
    ensures anchor { (i : List ℕ) → anchor.new ≡ (stand_after (i, anchor.old) (event_of call.now)).1 }
    ensures left { (i : List ℕ) → left.new ≡ anchor_after how (i, anchor.old) left.old (event_of call.now) }
{
    match call {
        Call::Advance {
            count,
            mark,
            failed,
        } => {
            if !*failed {
                *anchor = (*count, *mark);
                *left = (*count, *mark);
            } else if let AnchorLeft::New = how {
                *left = (*count, *mark);
            }
        }
        Call::Anchor => *left = *anchor,
        Call::Stop { count, mark, .. } => {
            *anchor = (*count, *mark);
            *left = (*count, *mark);
        }
        _ => {}
    }
}

/// The anchor that a stop leaves, of a device that began with this one.
pub fn anchor_left(how: AnchorLeft, start: (u64, [u8; 32]), entries: &[Entry]) -> (u64, [u8; 32])
    ensures { (i : List ℕ) → result ≡ anchor_of how (i, start) start (calls_of entries.now) }
{
    let mut anchor = start;
    let mut left = start;
    for entry in entries {
        replay_anchor(how, &mut anchor, &mut left, &entry.call);
    }
    left
}
