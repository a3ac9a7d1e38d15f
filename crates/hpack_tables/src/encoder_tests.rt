//! Header lists that python3-hpack's Encoder (version 4.0.0) encoded, written by bench/hpack_vectors.py.

use crate::tests::{assert_headers, bytes_of};
use crate::{Table, decode_block};
use std::test::*;

/// Connections by name: the blocks of each in order, with their headers.
const CONNECTIONS: [(&str, &[(&str, &[(&str, &str)])]); 6] = [
    (
        "requests, plain",
        &[
            (
                "8386444b2f6275696c642e62617a656c2e72656d6f74652e657865637574696f6e2e76322e436f6e74656e744164647265737361626c6553746f726167652f46696e644d697373696e67426c6f6273411663616368652e6578616d706c652e636f6d3a393039325f106170706c69636174696f6e2f677270634002746508747261696c6572737a0e677270632d676f2f312e36302e30400c677270632d74696d656f757403363053",
                &[
                    (":method", "POST"),
                    (":scheme", "http"),
                    (
                        ":path",
                        "/build.bazel.remote.execution.v2.ContentAddressableStorage/FindMissingBlobs",
                    ),
                    (":authority", "cache.example.com:9092"),
                    ("content-type", "application/grpc"),
                    ("te", "trailers"),
                    ("user-agent", "grpc-go/1.60.0"),
                    ("grpc-timeout", "60S"),
                ],
            ),
            (
                "838644222f676f6f676c652e6279746573747265616d2e4279746553747265616d2f52656164c3c2c1c0bf",
                &[
                    (":method", "POST"),
                    (":scheme", "http"),
                    (":path", "/google.bytestream.ByteStream/Read"),
                    (":authority", "cache.example.com:9092"),
                    ("content-type", "application/grpc"),
                    ("te", "trailers"),
                    ("user-agent", "grpc-go/1.60.0"),
                    ("grpc-timeout", "60S"),
                ],
            ),
            (
                "8386c4c3c2c1c07f000635393939396d",
                &[
                    (":method", "POST"),
                    (":scheme", "http"),
                    (
                        ":path",
                        "/build.bazel.remote.execution.v2.ContentAddressableStorage/FindMissingBlobs",
                    ),
                    (":authority", "cache.example.com:9092"),
                    ("content-type", "application/grpc"),
                    ("te", "trailers"),
                    ("user-agent", "grpc-go/1.60.0"),
                    ("grpc-timeout", "59999m"),
                ],
            ),
        ],
    ),
    (
        "requests, coded",
        &[
            (
                "838644b5623b4d448bc63f65a17b0b49d255cbe4a4b5263d4bf712f78f524b5261924b0a840e3a0bb927b073158c26aa4d06420d54d7683c68419020c939572f91d35d055c87a6e3e07c5f5f8b1d75d0620d263d4c4d65644082497f864d833505b11f7a8a9acac8b4c7602bb805c140899acac8b24d494f6a7f83701bbf",
                &[
                    (":method", "POST"),
                    (":scheme", "http"),
                    (
                        ":path",
                        "/build.bazel.remote.execution.v2.ContentAddressableStorage/FindMissingBlobs",
                    ),
                    (":authority", "cache.example.com:9092"),
                    ("content-type", "application/grpc"),
                    ("te", "trailers"),
                    ("user-agent", "grpc-go/1.60.0"),
                    ("grpc-timeout", "60S"),
                ],
            ),
            (
                "8386449962639e6a0abc7e925426c28e95eefa497726c28e963694727fc3c2c1c0bf",
                &[
                    (":method", "POST"),
                    (":scheme", "http"),
                    (":path", "/google.bytestream.ByteStream/Read"),
                    (":authority", "cache.example.com:9092"),
                    ("content-type", "application/grpc"),
                    ("te", "trailers"),
                    ("user-agent", "grpc-go/1.60.0"),
                    ("grpc-timeout", "60S"),
                ],
            ),
            (
                "8386c4c3c2c1c07f00856df7df7e9f",
                &[
                    (":method", "POST"),
                    (":scheme", "http"),
                    (
                        ":path",
                        "/build.bazel.remote.execution.v2.ContentAddressableStorage/FindMissingBlobs",
                    ),
                    (":authority", "cache.example.com:9092"),
                    ("content-type", "application/grpc"),
                    ("te", "trailers"),
                    ("user-agent", "grpc-go/1.60.0"),
                    ("grpc-timeout", "59999m"),
                ],
            ),
        ],
    ),
    (
        "responses, plain",
        &[
            (
                "885f106170706c69636174696f6e2f67727063",
                &[(":status", "200"), ("content-type", "application/grpc")],
            ),
            (
                "400b677270632d7374617475730130400c677270632d6d65737361676500",
                &[("grpc-status", "0"), ("grpc-message", "")],
            ),
            (
                "8d5c0130581c6e6f2d63616368652c20707269766174652c206d61782d6167653d30",
                &[
                    (":status", "404"),
                    ("content-length", "0"),
                    ("cache-control", "no-cache, private, max-age=0"),
                ],
            ),
            (
                "88c27f0201357f0250626c6f6220303132333435363738396162636465663031323334353637383961626364656630313233343536373839616263646566303132333435363738396162636465662069736e27742068657265",
                &[
                    (":status", "200"),
                    ("content-type", "application/grpc"),
                    ("grpc-status", "5"),
                    (
                        "grpc-message",
                        "blob 0123456789abcdef0123456789abcdef0123456789abcdef0123456789abcdef isn't here",
                    ),
                ],
            ),
        ],
    ),
    (
        "responses, coded",
        &[
            (
                "885f8b1d75d0620d263d4c4d6564",
                &[(":status", "200"), ("content-type", "application/grpc")],
            ),
            (
                "40889acac8b21234da8f810740899acac8b5254207317f80",
                &[("grpc-status", "0"), ("grpc-message", "")],
            ),
            (
                "8d5c81075895a8eb10649cbf4a5761bb8d25fa5291f9587316007f",
                &[
                    (":status", "404"),
                    ("content-length", "0"),
                    ("cache-control", "no-cache, private, max-age=0"),
                ],
            ),
            (
                "88c27f02816f7f02b98e83c6a002265a6dc75e7c719242ca0089969b71d79f1c6490b2802265a6dc75e7c719242ca0089969b71d79f1c6490b2a86455fe92a4e5b0b",
                &[
                    (":status", "200"),
                    ("content-type", "application/grpc"),
                    ("grpc-status", "5"),
                    (
                        "grpc-message",
                        "blob 0123456789abcdef0123456789abcdef0123456789abcdef0123456789abcdef isn't here",
                    ),
                ],
            ),
        ],
    ),
    (
        "a header that is never added",
        &[
            (
                "82841f088aba51d85b141c645e42cb4085f2b26c190b8400161cbf",
                &[
                    (":method", "GET"),
                    (":path", "/"),
                    ("authorization", "Bearer abc.def"),
                    ("x-trace", "00-af"),
                ],
            ),
            (
                "82851f088aba51d85b141c645e42cbbe",
                &[
                    (":method", "GET"),
                    (":path", "/index.html"),
                    ("authorization", "Bearer abc.def"),
                    ("x-trace", "00-af"),
                ],
            ),
        ],
    ),
    (
        "a table of 256, then none, then 4,096",
        &[
            (
                "3fe1018386444b2f6275696c642e62617a656c2e72656d6f74652e657865637574696f6e2e76322e436f6e74656e744164647265737361626c6553746f726167652f46696e644d697373696e67426c6f6273411663616368652e6578616d706c652e636f6d3a393039325f106170706c69636174696f6e2f677270634002746508747261696c6572737a0e677270632d676f2f312e36302e30400c677270632d74696d656f757403363053",
                &[
                    (":method", "POST"),
                    (":scheme", "http"),
                    (
                        ":path",
                        "/build.bazel.remote.execution.v2.ContentAddressableStorage/FindMissingBlobs",
                    ),
                    (":authority", "cache.example.com:9092"),
                    ("content-type", "application/grpc"),
                    ("te", "trailers"),
                    ("user-agent", "grpc-go/1.60.0"),
                    ("grpc-timeout", "60S"),
                ],
            ),
            (
                "838644222f676f6f676c652e6279746573747265616d2e4279746553747265616d2f52656164411663616368652e6578616d706c652e636f6d3a393039325f106170706c69636174696f6e2f677270634002746508747261696c6572737a0e677270632d676f2f312e36302e30400c677270632d74696d656f757403363053",
                &[
                    (":method", "POST"),
                    (":scheme", "http"),
                    (":path", "/google.bytestream.ByteStream/Read"),
                    (":authority", "cache.example.com:9092"),
                    ("content-type", "application/grpc"),
                    ("te", "trailers"),
                    ("user-agent", "grpc-go/1.60.0"),
                    ("grpc-timeout", "60S"),
                ],
            ),
            (
                "20838644222f676f6f676c652e6279746573747265616d2e4279746553747265616d2f52656164411663616368652e6578616d706c652e636f6d3a393039325f106170706c69636174696f6e2f677270634002746508747261696c6572737a0e677270632d676f2f312e36302e30400c677270632d74696d656f757403363053",
                &[
                    (":method", "POST"),
                    (":scheme", "http"),
                    (":path", "/google.bytestream.ByteStream/Read"),
                    (":authority", "cache.example.com:9092"),
                    ("content-type", "application/grpc"),
                    ("te", "trailers"),
                    ("user-agent", "grpc-go/1.60.0"),
                    ("grpc-timeout", "60S"),
                ],
            ),
            (
                "3fe11f8386444b2f6275696c642e62617a656c2e72656d6f74652e657865637574696f6e2e76322e436f6e74656e744164647265737361626c6553746f726167652f46696e644d697373696e67426c6f6273411663616368652e6578616d706c652e636f6d3a393039325f106170706c69636174696f6e2f677270634002746508747261696c6572737a0e677270632d676f2f312e36302e30400c677270632d74696d656f75740635393939396d",
                &[
                    (":method", "POST"),
                    (":scheme", "http"),
                    (
                        ":path",
                        "/build.bazel.remote.execution.v2.ContentAddressableStorage/FindMissingBlobs",
                    ),
                    (":authority", "cache.example.com:9092"),
                    ("content-type", "application/grpc"),
                    ("te", "trailers"),
                    ("user-agent", "grpc-go/1.60.0"),
                    ("grpc-timeout", "59999m"),
                ],
            ),
        ],
    ),
];

#[test]
fn blocks_of_another_encoder_are_read(rt: HostRuntime) -> Result<(), Fail> {
    for (connection, blocks) in CONNECTIONS {
        let mut table = Table::new(rt.alloc(), 4_096);
        for (hex, wanted) in blocks {
            let block = bytes_of(rt.alloc(), hex)?;
            let headers = decode_block(rt.alloc(), &mut table, block.as_slice())?;
            assert_headers(&rt, connection, &headers, wanted);
        }
    }
    Ok(())
}
