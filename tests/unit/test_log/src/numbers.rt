use std::alloc::{AllocError, Global};

/// How many octets a number has.
const WIDTH: usize = 8;

/// The numbers of a log.
#[derive(Clone, Copy, Debug)]
pub struct Numbers {
    /// How many there are.
    pub count: u64,
    /// Whether they count up from 0.
    pub in_order: bool,
}

impl Numbers {
    /// The numbers of the payloads of a log.
    pub fn of(payloads: &[&[u8]]) -> Numbers {
        let mut numbers = Numbers {
            count: 0,
            in_order: true,
        };
        for payload in payloads {
            for number in payload.chunks(WIDTH) {
                numbers.take(number);
            }
        }
        numbers
    }

    /// Takes the octets of a number more.
    fn take(&mut self, number: &[u8]) {
        self.in_order = self.in_order && number == self.count.to_be_bytes().as_slice();
        self.count = self.count.saturating_add(1);
    }
}

/// The octets of `count` numbers, from `first` on.
pub fn payload_of(alloc: Global, first: u64, count: u64) -> Result<Vec<u8>, AllocError> {
    let mut payload = Vec::new(alloc);
    for step in 0..count {
        payload.extend_from_slice(&first.wrapping_add(step).to_be_bytes())?;
    }
    Ok(payload)
}
