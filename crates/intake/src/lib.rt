// What a program reads: the bytes of an input, at the front of lent bytes.
#![tactic(auto)]

ghost use Rattle.std.specs.Prelude.{◌<◌, length, take, IfOk};
ghost use Rattle.std.specs.Io.{ReadsAtMost};
ghost use Rattle.std.specs.Io.KnownBytes.{Consumes, IsAtEnd};

use std::io;
use std::io::Read;

// Reads until the input ends or the room is full, and answers how many bytes stand at the front of the room; fewer than it has only where the input has ended. A read that fails,
// also one that a signal interrupts, is an error.
pub fn read_text<R: Read>(input: &mut R, room: &mut [u8]) -> io::Result<usize>
    ensures in_bounds { ReadsAtMost result room.new }
    ensures bytes { IfOk result (λ n. Consumes (R.remaining input.old) (R.remaining input.new) (take n room.new)) }
    ensures end { IfOk result (λ n. n < length room.new → IsAtEnd (R.remaining input.new)) }
{
    let mut size: usize = 0;
    while size < room.len() {
        let more = input.read(&mut room[size..])?;
        let ended = more == 0;
        if ended {
            return Ok(size);
        }
        size += more;
    }
    Ok(size)
}

#[cfg(test)]
mod tests {
    use super::*;
    use std::test::Fail;

    // An input that gives two bytes a read, and fails at the third read.
    #[derive(Drop)]
    struct Failing(u8);

    impl Read for Failing {
        fn read(&mut self, buf: &mut [u8]) -> io::Result<usize> {
            if self.0 >= 2 {
                return Err(io::Error::from(io::ErrorKind::Interrupted));
            }
            self.0 += 1;
            if buf.len() < 2 {
                return Ok(0);
            }
            buf[0] = b'a';
            buf[1] = b'b';
            Ok(2)
        }
    }

    #[test]
    fn reads_up_to_the_room(rt: HostRuntime) -> Result<(), Fail> {
        let mut input: &[u8] = b"564 1";
        let mut room = [0u8; 3];
        assert_eq!(rt; read_text(&mut input, &mut room)?, 3);
        assert_eq!(rt; &room[..], b"564".as_slice());
        assert_eq!(rt; read_text(&mut input, &mut room)?, 2);
        assert_eq!(rt; &room[..2], b" 1".as_slice());
        assert_eq!(rt; read_text(&mut input, &mut room)?, 0);
        Ok(())
    }

    #[test]
    fn fails_with_the_input(rt: HostRuntime) -> Result<(), Fail> {
        let mut room = [0u8; 8];
        let failed = match read_text(&mut Failing(0), &mut room) {
            Ok(_) => false,
            Err(e) => e.kind() == io::ErrorKind::Interrupted,
        };
        assert!(rt; failed);
        let mut short = [0u8; 4];
        assert_eq!(rt; read_text(&mut Failing(0), &mut short)?, 4);
        Ok(())
    }
}
