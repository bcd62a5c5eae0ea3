//! What holds of requests and their bytes, each as the contract of a function that does nothing.
ghost use Rattle.std.specs.Prelude.{◌≡◌, ◌≤◌, ◌↔◌, ℕ, List};
ghost use Rattle.vi_bytes.specs.Fields.{byte_at};
ghost use Rattle.vi_history.specs.Fields.{FieldsFit};
ghost use Rattle.vi_history.specs.Requests.{request_bytes, reading, writable_size};
ghost use Rattle.vi_history.specs.declared.reading.Reading.TheVariants.{Asks};
ghost use Rattle.vi_history.specs.declared.request.Request.{Request};
ghost use Rattle.vi_req.specs.Requests.{type_of, IsRequest};
ghost use Rattle.vi_req.specs.Refusals.{RefusedAs, refused_reading};
ghost use Rattle.vi_req.specs.declared.refusal.ReqFault.{ReqFault};

/// The bytes that are written for a request (Virtio 1.2, 5.13.6) are read as this request.
pub fn requests_read_back()
    ensures { (request : Request) → FieldsFit request → IsRequest request (request_bytes request) }
{}

/// Bytes are read as one request at most.
pub fn requests_read_once()
    ensures { (bytes : List ℕ) (request other : Request)
        → IsRequest request bytes → IsRequest other bytes → request ≡ other }
{}

/// A device with enough room for the reply takes bytes for the request that they are read as, and for
/// no other: a request is replied to as its bytes are.
pub fn requests_are_asked()
    ensures asked { (bytes : List ℕ) (write : ℕ) (request : Request)
        → writable_size (byte_at 0 bytes) ≤ write
        → (reading bytes write ≡ Asks request) ↔ IsRequest request bytes }
    ensures written { (request : Request)
        → FieldsFit request
        → reading (request_bytes request) (writable_size (type_of request)) ≡ Asks request }
{}

/// A device with enough room for the reply answers nothing to bytes without a known type, and says of
/// other refused bytes that they are malformed.
pub fn refusals_are_answered()
    ensures { (bytes : List ℕ) (write : ℕ) (fault : ReqFault)
        → writable_size (byte_at 0 bytes) ≤ write
        → RefusedAs bytes fault
        → reading bytes write ≡ refused_reading (byte_at 0 bytes) fault }
{}
